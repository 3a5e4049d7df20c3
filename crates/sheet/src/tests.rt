// What a caller can do with a reader of `sheet_read`: be told its five parts, of a text that was refused too, make one of five parts, and
// copy what holds one. The program has no use for that. It stands here to witness that a caller can.

ghost use Rattle.std.specs.Prelude.{◌≡◌, Some};
ghost use Rattle.sheet_text.specs.Read as spec;
ghost use Rattle.sheet_read.specs.Shown.{shown};

use sheet_read::Reader;
use sheet_text::{Spot, TextFault};
use std::test::Fail;

// How many bytes of the session there are at the end of a text, be it good or not.
fn told(text: &[u8], out: &mut [u8]) -> usize
    ensures { result ≡ (spec.finish (spec.feed spec.begin text.now)).length }
{
    let reader = Reader::begin().feed(text, out).finish(out);
    reader.length()
}

// A reader with another fault, and its other parts.
fn with_fault(reader: Reader, fault: TextFault) -> Reader
    ensures { shown result
        ≡ spec.reader (shown reader).spot (shown reader).line (shown reader).length (shown reader).lines (Some fault) }
{
    Reader::of(
        reader.spot(),
        reader.line(),
        reader.length(),
        reader.lines(),
        Some(fault),
    )
}

// What refuses a text that is read behind such a fault.
fn given(fault: TextFault, text: &[u8], out: &mut [u8]) -> Option<TextFault>
    ensures { result ≡ (spec.feed (spec.reader spec.begin.spot spec.begin.line 0 0 (Some fault)) text.now).fault }
{
    with_fault(Reader::begin(), fault).feed(text, out).fault()
}

// One of several texts that are read in turns.
#[derive(Clone, Copy)]
struct Numbered {
    number: usize,
    reader: Reader,
}

// The next part of its text is read.
fn further(one: Numbered, text: &[u8], out: &mut [u8]) -> Numbered
    ensures { (result.number ≡ one.number) × (shown result.reader ≡ spec.feed (shown one.reader) text.now) }
{
    Numbered {
        number: one.number,
        reader: one.reader.feed(text, out),
    }
}

// How many bytes of the session there are before a part of a text, and after it. What holds the reader is passed by value and used again:
// it is copied, as the reader itself is.
fn before_and_after(one: Numbered, text: &[u8], out: &mut [u8]) -> (usize, usize)
    ensures { result ≡ ((shown one.reader).length, (spec.feed (shown one.reader) text.now).length) }
{
    let after = further(one, text, out);
    (one.reader.length(), after.reader.length())
}

fn wanted(so: bool) -> Result<(), Fail> {
    so.then_some(()).ok_or("something else was told")?;
    Ok(())
}

// §18.8: the first line is good, and the second has an address where none is asked for. Each is three bytes of a session.
const REFUSED: &[u8] = b"ST,0,,\r\nST,1,9,\r\n";

#[test]
fn a_refused_text_is_told_in_its_parts() -> Result<(), Fail> {
    let mut out = [0; 8];
    let reader = Reader::begin().feed(REFUSED, &mut out).finish(&mut out);
    wanted(reader.fault() == Some(TextFault::WrongField))?;
    wanted(reader.length() == 6)?;
    wanted(reader.lines() == 1)?;
    wanted(reader.line().fields == 4)?;
    wanted(reader.spot() == Spot::Fresh)?;
    wanted(told(REFUSED, &mut out) == 6)
}

#[test]
fn a_fault_that_is_given_stays() -> Result<(), Fail> {
    let mut out = [0; 8];
    wanted(given(TextFault::TooLong, REFUSED, &mut out) == Some(TextFault::TooLong))?;
    wanted(out == [0; 8])
}

// One line was good before, and three bytes of the session are there.
#[test]
fn a_reader_that_is_made_goes_on() -> Result<(), Fail> {
    let mut out = [0; 8];
    let reader = Reader::of(Spot::Fresh, Reader::begin().line(), 3, 1, None);
    let reader = reader.feed(b"CM,7,,\r\n", &mut out);
    wanted(reader.fault().is_none())?;
    wanted(reader.lines() == 2)?;
    wanted(reader.length() == 6)?;
    wanted(out == *b"\0\0\0CM\x07\0\0")
}

#[test]
fn what_holds_a_reader_is_copied() -> Result<(), Fail> {
    let mut out = [0; 8];
    let one = Numbered {
        number: 7,
        reader: Reader::begin(),
    };
    wanted(before_and_after(one, REFUSED, &mut out) == (0, 6))?;
    wanted(one.reader.length() == 0)
}
