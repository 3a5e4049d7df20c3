// What refuses a request (§9), with the number that tells it, and what is seen or answered as a look-up answers it (§5.6).
ghost use Rattle.std.specs.Prelude.{◌≡◌};
ghost use Rattle.memory.specs.Numbers.{plain, looked_as, looked_at, too_early, refusal_number};

use crate::{Answer, Looked, Phase, Seen};

// §9.1: why a request is not done.
#[derive(Clone, Copy, PartialEq, Eq)]
pub enum Refusal {
    Unsound,
    OutOfRange,
    NoTask,
    TooEarly(Phase),
    NoAddress,
    Full,
    NothingRead,
    NoVersion,
    Overtaken,
}

// §6.3: the number of a request that comes too early. The phase plays no part yet: it is to be told apart by it.
fn too_early(phase: Phase) -> u32
    ensures { result ≡ too_early phase }
{
    4
}

impl Refusal {
    // §9.1: the number of each.
    pub fn number(self) -> u32
        ensures { result ≡ refusal_number self }
    {
        match self {
            Refusal::Unsound => 1,
            Refusal::OutOfRange => 2,
            Refusal::NoTask => 3,
            Refusal::TooEarly(phase) => too_early(phase),
            Refusal::NoAddress => 5,
            Refusal::Full => 6,
            Refusal::NothingRead => 7,
            Refusal::NoVersion => 8,
            Refusal::Overtaken => 9,
        }
    }
}

// §6.1: a refusal has no value.
impl From<Refusal> for Answer {
    ghost from_gives = { λ refusal answer. answer ≡ plain (refusal_number refusal) };

    fn from(refusal: Refusal) -> Answer {
        Answer::plain(refusal.number())
    }
}

// §5.6: an answer without a version.
impl From<Answer> for Looked {
    ghost from_gives = { λ answer seen. seen ≡ looked_as answer };

    fn from(answer: Answer) -> Looked {
        Looked {
            number: answer.number,
            value: answer.value,
            version: 0,
        }
    }
}

// §5.6: what is seen at an address.
impl From<Seen> for Looked {
    ghost from_gives = { λ seen looked. looked ≡ looked_at seen };

    fn from(seen: Seen) -> Looked {
        let Seen { value, version } = seen;
        Looked {
            number: 0,
            value,
            version,
        }
    }
}
