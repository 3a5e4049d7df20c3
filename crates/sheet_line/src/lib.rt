// A line of a comma-separated schedule, field by field (§18.5 to §18.8): its content, the bytes that it stands for, and what refuses it.

#![tactic(auto)]

ghost use Rattle.std.specs.Prelude.{◌≡◌, true, ◌-◌, ◌<◌, ◌≤◌};
ghost use Rattle.session_text.specs.Out.{Puts};
ghost use Rattle.sheet_text.specs.Line as spec;

use session_marks::Kind;
use session_text::Out;
use sheet_text::{Digits, Letters, Line, TextFault};

// Fields that are counted: more than any line has.
const MOST_FIELDS: usize = 6;

// A line at its beginning.
pub fn blank() -> Line
    ensures { result ≡ spec.blank }
{
    Line {
        letters: Letters::NoLetter,
        digits: Digits::NoDigit,
        kind: None,
        fields: 0,
        wrong: false,
    }
}

fn add_letter(letters: Letters, byte: u8) -> Letters
    ensures { result ≡ spec.add_letter letters byte }
{
    match letters {
        Letters::NoLetter => Letters::One(byte),
        Letters::One(first) => Letters::Two(first, byte),
        Letters::Two(_, _) | Letters::More => Letters::More,
    }
}

// A number with one digit more, given in ASCII, if some field has room for it.
#[tactic(auto, unfolding(sheet_text::specs::Line::grown))]
fn grown(number: u32, digit: u8) -> Digits
    requires { spec.is_digit digit ≡ true }
    ensures { result ≡ spec.grown number (digit - 48) }
{
    let more = 10 * number as u64 + (digit - b'0') as u64;
    match u32::try_from(more) {
        Ok(number) => Digits::Number(number),
        Err(_) => Digits::Other,
    }
}

#[tactic(auto, using(sheet_text::proofs::Content::first_digit))]
fn add_digit(digits: Digits, byte: u8) -> Digits
    ensures { result ≡ spec.add_digit digits byte }
{
    if !byte.is_ascii_digit() {
        return Digits::Other;
    }
    match digits {
        Digits::NoDigit => grown(0, byte),
        Digits::Number(number) => grown(number, byte),
        Digits::Other => Digits::Other,
    }
}

// A line with a byte more in the field that is read. The digits come first, since the compiler makes quicker code of that.
#[tactic(auto, unfolding(sheet_text::specs::Line::with_byte))]
pub fn with_byte(line: Line, byte: u8) -> Line
    ensures { result ≡ spec.with_byte line byte }
{
    let digits = add_digit(line.digits, byte);
    let letters = add_letter(line.letters, byte);
    Line {
        letters,
        digits,
        ..line
    }
}

// §18.5: the mark that the first field is.
fn kind_of(letters: Letters) -> Option<Kind>
    ensures { result ≡ spec.kind_of letters }
{
    match letters {
        Letters::Two(first, second) => session_marks::kind_at(&[first, second]),
        Letters::NoLetter | Letters::One(_) | Letters::More => None,
    }
}

// §18.6: how many numbers a field of so many bytes has room for.
#[tactic(auto, unfolding(sheet_text::specs::Line::room), using(crate::proofs::Bytes::moved))]
fn room(width: usize) -> u64
    requires { width ≤ 4 }
    ensures { result ≡ spec.room width }
{
    if width == 0 { 0 } else { 1 << (8 * width) }
}

// §18.6: whether a field is as asked: empty if it is not used, and else a number that it has room for.
fn fits(width: usize, digits: Digits) -> bool
    requires { width ≤ 4 }
    ensures { result ≡ spec.fits width digits }
{
    match digits {
        Digits::NoDigit => width == 0,
        Digits::Number(number) => (number as u64) < room(width),
        Digits::Other => false,
    }
}

fn value_of(digits: Digits) -> u32
    ensures { result ≡ spec.value_of digits }
{
    match digits {
        Digits::Number(number) => number,
        Digits::NoDigit | Digits::Other => 0,
    }
}

// The bytes of a number of a line, by the kind that its first field named.
fn width_at(kind: Option<Kind>, number: usize) -> usize
    ensures { (result ≡ spec.width_at kind number) × (result ≤ 4) }
{
    match kind {
        Some(kind) => session_fields::width(kind, number),
        None => 0,
    }
}

// A line with its first field ended.
fn mark_ended(letters: Letters) -> Line
    ensures { result ≡ spec.mark_ended letters }
{
    Line {
        kind: kind_of(letters),
        fields: 1,
        ..blank()
    }
}

fn one_more(fields: usize) -> usize
    ensures { result ≡ spec.one_more fields }
{
    if fields < MOST_FIELDS {
        fields + 1
    } else {
        fields
    }
}

// §18.5: how many numbers follow a mark.
pub fn numbers_of(kind: Kind) -> usize
    ensures { result ≡ spec.numbers_of kind }
{
    if session_marks::opens(kind) { 4 } else { 3 }
}

// §18.8: what refuses a line whose fields have ended, if anything does.
pub fn verdict(line: Line) -> Option<TextFault>
    ensures { result ≡ spec.verdict line }
{
    let Some(kind) = line.kind else {
        return Some(TextFault::UnknownMark);
    };
    if line.fields != numbers_of(kind) + 1 {
        return Some(TextFault::WrongCount);
    }
    if line.wrong {
        return Some(TextFault::WrongField);
    }
    None
}

// Puts a number in so many bytes, the lowest first.
fn put_little(out: &mut Out<'_>, width: usize, number: u32)
    requires { (out.old.at < 2000000000) × (width ≤ 4) }
    ensures { Puts 4 out.old out.new (spec.little width number) }
{
    for &byte in &number.to_le_bytes()[..width] {
        out.put_byte(byte);
    }
}

// Puts the letters of a mark, if there are two.
fn put_letters(out: &mut Out<'_>, letters: Letters)
    requires { out.old.at < 2000000000 }
    ensures { Puts 4 out.old out.new (spec.letters_of letters) }
{
    if let Letters::Two(first, second) = letters {
        out.put_byte(first);
        out.put_byte(second);
    }
}

// Ends the field that is read, and puts the bytes of the session that it stands for. One function does both, since both ask for the
// width of the field.
#[tactic(auto, unfolding(sheet_text::specs::Line::field_ended, sheet_text::specs::Line::field_bytes))]
pub fn end_field(out: &mut Out<'_>, line: Line) -> Line
    requires { out.old.at < 2000000000 }
    ensures { (result ≡ spec.field_ended line)
        × Puts 4 out.old out.new (spec.field_bytes line) }
{
    if line.fields == 0 {
        put_letters(out, line.letters);
        return mark_ended(line.letters);
    }
    let width = width_at(line.kind, line.fields - 1);
    put_little(out, width, value_of(line.digits));
    Line {
        letters: Letters::NoLetter,
        digits: Digits::NoDigit,
        fields: one_more(line.fields),
        wrong: line.wrong || !fits(width, line.digits),
        ..line
    }
}
