// Numbers at random. Each is settled by the seed, by the moment in which it is drawn and by what it is drawn for, so that no state is
// handed on.
ghost use Rattle.std.specs.Prelude.{◌≤◌, ◌+◌};

const SEED: u32 = 20031026;

// What is drawn of a board, and then of a call.
#[derive(Clone, Copy)]
pub enum What {
    Words = 1,
    Records = 2,
    Tasks = 3,
    First = 4,
    PastTasks = 5,
    Task = 6,
    PastWords = 7,
    Address = 8,
    Value = 9,
    Looks = 10,
    Odd = 11,
    OddKind = 12,
    Ends = 13,
    End = 14,
    Use = 15,
    Unfit = 16,
}

// The two halves of a product with the golden ratio, laid over each other.
fn mixed(x: u32) -> u32 {
    let product = u64::from(x) * 2654435769;
    let high = (product / 4294967296) as u32;
    let low = (product % 4294967296) as u32;
    high ^ low
}

// A call of a schedule.
#[derive(Clone, Copy)]
pub struct Moment(u32);

impl Moment {
    // No schedule has more than 1,024 calls.
    pub fn of(schedule: u32, index: u32) -> Moment {
        Moment((schedule << 10).wrapping_add(index))
    }

    // A number below a bound, and 0 below 0.
    pub fn draw(self, what: What, below: usize) -> usize
        ensures { result ≤ below }
    {
        let x = mixed(mixed(self.0 ^ SEED) ^ what as u32);
        let y = mixed(x.wrapping_add(SEED)) as usize;
        if below == 0 { 0 } else { y % below }
    }

    pub fn from_one(self, what: What, most: usize) -> usize
        ensures { result ≤ most + 1 }
    {
        self.draw(what, most).saturating_add(1)
    }
}
