// A session file (§11), split into its records: what stands next in what is left of it, and its body.

#![tactic(auto)]

ghost use Rattle.std.specs.Prelude.{◌≡◌};
ghost use Rattle.session_split.specs.Session as spec;

use session_marks::{Kind, MARK_LENGTH};

// §11.1: bytes of the longest session.
pub const MOST_BYTES: usize = 60000;

// §12.1: room for it, and for one byte more, by which one that is too long is told (14).
pub const ROOM: usize = MOST_BYTES + 1;

// §11.6: why a record is refused.
#[derive(Clone, Copy, PartialEq, Eq)]
pub enum Fault {
    UnknownMark,
    CutShort,
    Misplaced,
    TooLong,
}

impl Fault {
    // §11.6: the number that tells it.
    pub fn number(self) -> u32
        ensures { result ≡ spec.number_of self }
    {
        match self {
            Fault::UnknownMark => 10,
            Fault::CutShort => 11,
            Fault::Misplaced => 12,
            Fault::TooLong => 14,
        }
    }
}

// How many bytes a record has, its mark among them: the next record is read from the part that begins there.
pub fn record_length(kind: Kind) -> usize
    ensures { result ≡ spec.record_length kind }
{
    MARK_LENGTH + session_fields::body_length(kind)
}

// §11.3, §11.5, §11.6: splits a record off what is left of a session, or nothing where the session ends there. At the first record
// that is the whole session.
#[tactic(auto, unfolding(crate::specs::Session::split, crate::specs::Session::placed))]
pub fn split_off(rest: &[u8], first: bool) -> Result<Option<Kind>, Fault>
    ensures { result ≡ spec.split first rest.now }
{
    if first && MOST_BYTES < rest.len() {
        return Err(Fault::TooLong);
    }
    if !first && rest.is_empty() {
        return Ok(None);
    }
    if rest.len() < MARK_LENGTH {
        return Err(Fault::CutShort);
    }
    let Some(kind) = session_marks::kind_at(rest) else {
        return Err(Fault::UnknownMark);
    };
    if session_marks::opens(kind) != first {
        return Err(Fault::Misplaced);
    }
    if rest.len() < record_length(kind) {
        return Err(Fault::CutShort);
    }
    Ok(Some(kind))
}

// §11.4: kind and body stay two values, since what is promised of a session's splitting goes by the kind. A record's body, a part of the session's bytes from behind the mark on; where the session is cut short, what there is.
#[tactic(auto, unfolding(crate::specs::Session::body))]
pub fn body(rest: &[u8], kind: Kind) -> &[u8]
    ensures { result.now ≡ spec.body kind rest.now }
{
    if rest.len() < MARK_LENGTH {
        return &rest[..0];
    }
    let end = record_length(kind).min(rest.len());
    &rest[MARK_LENGTH..end]
}
