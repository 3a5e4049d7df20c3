// What a schedule in comma-separated text is (§18): what is known of a line so far, and what reading and writing answer. Its
// definitions and what is promised of them stand in specs/; the code that meets them in the other crates of this group.

#![tactic(auto)]

ghost use Rattle.std.specs.Prelude.{◌≡◌};
ghost use Rattle.sheet_text.specs.Answer.{text_number, number_of};

use session_marks::Kind;
use session_split::Fault;

// §18.8: what refuses a text.
#[derive(Clone, Copy, PartialEq, Eq)]
pub enum TextFault {
    BadQuoting,
    WrongCount,
    WrongField,
    UnknownMark,
    TooLong,
}

impl TextFault {
    // §18.8: the number that tells it.
    pub fn number(self) -> u32
        ensures { result ≡ text_number self }
    {
        match self {
            TextFault::BadQuoting => 30,
            TextFault::WrongCount => 31,
            TextFault::WrongField => 32,
            TextFault::UnknownMark => 33,
            TextFault::TooLong => 34,
        }
    }
}

// What refuses a reading or a writing: a fault of the text, a fault of the session, or a buffer that is too short.
#[derive(Clone, Copy, PartialEq, Eq)]
pub enum Cause {
    Text(TextFault),
    Session(Fault),
    NoRoom,
}

impl Cause {
    // §18.9, §18.10: the number that tells it.
    pub fn number(self) -> u32
        ensures { result ≡ number_of self }
    {
        match self {
            Cause::Text(fault) => fault.number(),
            Cause::Session(fault) => fault.number(),
            Cause::NoRoom => 35,
        }
    }
}

// What a reading or a writing answers that is not refused: how many bytes were written, and how many lines, or records, there are.
#[derive(Clone, Copy, PartialEq, Eq)]
pub struct Done {
    pub length: usize,
    pub lines: usize,
}

// One that is refused: why, and how many lines, or records, were good before that.
#[derive(Clone, Copy, PartialEq, Eq)]
pub struct Refused {
    pub cause: Cause,
    pub lines: usize,
}

// §18.2: the bytes that mean something outside quotes, and the one that means something inside.
pub const QUOTE: u8 = b'"';

pub const COMMA: u8 = b',';

pub const RETURN: u8 = b'\r';

pub const NEWLINE: u8 = b'\n';

// Where the next byte stands: at the beginning of a field, in a bare one, between quotes, behind a quote that stood there, or behind
// a CR outside quotes.
#[derive(Clone, Copy, PartialEq, Eq)]
pub enum Spot {
    Fresh,
    Bare,
    Quoted,
    Closed,
    Return,
}

// What a byte is there: a byte of the field's content, or beside it, and where the next one stands then; the end of the field, or of
// the line too; or one that may not stand there.
#[derive(Clone, Copy, PartialEq, Eq)]
pub enum Turn {
    Content(Spot),
    Beside(Spot),
    FieldEnds,
    LineEnds,
    Stray,
}

// The content of a field so far, as a mark: more than two letters are none.
#[derive(Clone, Copy, PartialEq, Eq)]
pub enum Letters {
    NoLetter,
    One(u8),
    Two(u8, u8),
    More,
}

// The same content as a number: nothing yet, a number that some field has room for, or something else.
#[derive(Clone, Copy, PartialEq, Eq)]
pub enum Digits {
    NoDigit,
    Number(u32),
    Other,
}

// A line so far: how many fields have ended, of which six stand for more; the content of the field that is read; the kind that the first
// field named; and whether a field that has ended is not as the kind asks. The small ones stand together, so that a reader, which is
// copied at each byte, has few bytes that mean nothing. Count and flag stay: the definitions of specs/Line.antt are over them.
#[derive(Clone, Copy)]
pub struct Line {
    pub fields: usize,
    pub digits: Digits,
    pub letters: Letters,
    pub kind: Option<Kind>,
    pub wrong: bool,
}
