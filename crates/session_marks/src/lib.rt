// The kinds of the records of a session file, and the marks that they begin with (§11.2).

#![tactic(auto)]

ghost use Rattle.std.specs.Prelude.{◌≡◌};
ghost use Rattle.session_marks.specs.Marks as spec;

// §11.2: bytes of a mark.
pub const MARK_LENGTH: usize = 2;

// What a record asks for, by its mark.
#[derive(Clone, Copy, PartialEq, Eq)]
pub enum Kind {
    Open,
    Start,
    Commit,
    Abort,
    Wait,
    Step,
    Read,
    Write,
}

// §11.2: the kind whose mark the bytes begin with.
#[tactic(auto, unfolding(crate::specs::Marks::kind_at))]
pub fn kind_at(rest: &[u8]) -> Option<Kind>
    ensures { result ≡ spec.kind_at rest.now }
{
    match rest {
        [b'B', b'D', ..] => Some(Kind::Open),
        [b'S', b'T', ..] => Some(Kind::Start),
        [b'C', b'M', ..] => Some(Kind::Commit),
        [b'A', b'B', ..] => Some(Kind::Abort),
        [b'W', b'T', ..] => Some(Kind::Wait),
        [b'S', b'P', ..] => Some(Kind::Step),
        [b'R', b'D', ..] => Some(Kind::Read),
        [b'W', b'R', ..] => Some(Kind::Write),
        _ => None,
    }
}

// §11.3: whether a record of this kind opens a board.
pub fn opens(kind: Kind) -> bool
    ensures { result ≡ spec.opens kind }
{
    kind == Kind::Open
}
