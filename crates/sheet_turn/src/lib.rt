// What a byte of a comma-separated text is where it stands (§18.2 to §18.4): a field's content, a field's or a line's end, or astray.

#![tactic(auto)]

ghost use Rattle.std.specs.Prelude.{◌≡◌, true};
ghost use Rattle.sheet_text.specs.Turn as spec;
ghost use Rattle.sheet_turn.specs.Contract.{is_open};

use sheet_text::{COMMA, NEWLINE, QUOTE, RETURN, Spot, Turn};

// A byte behind a field.
#[tactic(auto, unfolding(sheet_text::specs::Turn::leave))]
fn leave(byte: u8) -> Turn
    ensures { result ≡ spec.leave byte }
{
    match byte {
        COMMA => Turn::FieldEnds,
        RETURN => Turn::Beside(Spot::Return),
        _ => Turn::Stray,
    }
}

// Whether a byte is one of the four that mean something. None is above the comma, and most bytes of a text are.
fn is_special(byte: u8) -> bool
    ensures { result ≡ spec.special byte }
{
    byte <= COMMA && matches!(byte, QUOTE | COMMA | RETURN | NEWLINE)
}

// A quote is one thing, and every other byte another.
fn by_quote(byte: u8, quote: Turn, other: Turn) -> Turn
    ensures { result ≡ spec.by_quote byte quote other }
{
    if byte == QUOTE { quote } else { other }
}

// Whether a bare field goes on here, or may begin.
fn is_open(spot: Spot) -> bool
    ensures { result ≡ is_open spot }
{
    matches!(spot, Spot::Fresh | Spot::Bare)
}

// A byte that is no content of a bare field.
#[tactic(auto, unfolding(sheet_text::specs::Turn::bare))]
fn turn_aside(spot: Spot, byte: u8) -> Turn
    requires { is_open spot ≡ true → spec.special byte ≡ true }
    ensures { result ≡ spec.turn spot byte }
{
    match spot {
        Spot::Fresh => by_quote(byte, Turn::Beside(Spot::Quoted), leave(byte)),
        Spot::Bare => leave(byte),
        Spot::Quoted => by_quote(
            byte,
            Turn::Beside(Spot::Closed),
            Turn::Content(Spot::Quoted),
        ),
        Spot::Closed => by_quote(byte, Turn::Content(Spot::Quoted), leave(byte)),
        Spot::Return if byte == NEWLINE => Turn::LineEnds,
        Spot::Return => Turn::Stray,
    }
}

// §18.3: what a byte is where it stands. Most bytes are content of a bare field, or the comma behind it. These are told first, and at
// once for both places where such a field is open: the compiler makes fewer jumps of that.
#[tactic(auto, unfolding(sheet_text::specs::Turn::bare), using(crate::proofs::Open::plain_goes_on, crate::proofs::Open::comma_ends))]
pub fn turn(spot: Spot, byte: u8) -> Turn
    ensures { result ≡ spec.turn spot byte }
{
    if is_open(spot) {
        if !is_special(byte) {
            return Turn::Content(Spot::Bare);
        }
        if byte == COMMA {
            return Turn::FieldEnds;
        }
    }
    turn_aside(spot, byte)
}

// §18.4: what the end of the text is, after so many fields of a line.
pub fn ending(spot: Spot, fields: usize) -> Turn
    ensures { result ≡ spec.ending spot fields }
{
    match spot {
        Spot::Fresh if fields == 0 => Turn::Beside(Spot::Fresh),
        Spot::Fresh | Spot::Bare | Spot::Closed => Turn::LineEnds,
        Spot::Quoted | Spot::Return => Turn::Stray,
    }
}
