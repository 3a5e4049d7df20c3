// The numbers by which a call is refused (§9), written out once more.
#[derive(Clone, Copy, PartialEq, Eq)]
pub enum Refusal {
    Unsound = 1,
    OutOfRange = 2,
    NoTask = 3,
    TooEarly = 4,
    NoAddress = 5,
    Full = 6,
    NothingRead = 7,
    NoVersion = 8,
    Overtaken = 9,
}
