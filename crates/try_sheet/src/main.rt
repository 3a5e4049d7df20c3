// Asks the reading and the writing of comma-separated text (§18.9, §18.10) for each case on standard input, in a buffer of the room
// that the case says. Prints what was answered, and the whole buffer, so that a byte that was written by mistake shows. A case is `r` or
// `w`, the room and the length of what is given in four bytes each, the lowest first, and what is given.

#![tactic(auto)]

use program_input::{read_full, room};
use sheet_text::{Done, Refused};
use std::io;
use std::io::Read;

// What stands in a buffer before it is lent.
const BEFORE: u8 = 170;

// Bytes of the longest text and the largest buffer that are tried.
const MOST_GIVEN: usize = 1000000;

const MOST_ROOM: usize = 250000;

// A number of four bytes, the lowest first.
fn number_of(bytes: [u8; 4]) -> usize {
    u32::from_le_bytes(bytes) as usize
}

// The way stays a byte: it is what the case says.
fn ask(way: u8, given: &[u8], out: &mut [u8]) -> Result<Done, Refused> {
    if way == b'r' {
        sheet_read::read(given, out)
    } else {
        sheet_write::write(given, out)
    }
}

// §18.9: the three numbers of an answer, and the buffer.
fn print(rt: &impl Print, answer: Result<Done, Refused>, out: &[u8]) -> io::Result<()> {
    let (number, length, lines) = match answer {
        Ok(done) => (0, done.length, done.lines),
        Err(refused) => (refused.cause.number(), 0, refused.lines),
    };
    println!(rt; "{number} {length} {lines}")?;
    rt.write_all(out)
}

// Reads what is given, asks, and prints. What is lent here are the parts that the case asks for.
fn try_parts<I: Read>(
    from: &mut I,
    rt: &impl Print,
    way: u8,
    given: &mut [u8],
    out: &mut [u8],
) -> io::Result<()> {
    read_full(from, given)?;
    out.fill(BEFORE);
    let answer = ask(way, given, out);
    print(rt, answer, out)
}

// One case. Answers whether there was one.
fn try_one<I: Read>(
    from: &mut I,
    rt: &impl Print,
    given: &mut [u8],
    out: &mut [u8],
) -> io::Result<bool> {
    let mut head = [0u8; 9];
    if read_full(from, &mut head)? < 9 {
        return Ok(false);
    }
    let [way, r0, r1, r2, r3, l0, l1, l2, l3] = head;
    let room = number_of([r0, r1, r2, r3]);
    let length = number_of([l0, l1, l2, l3]);
    let (Some(given), Some(out)) = (given.get_mut(..length), out.get_mut(..room)) else {
        return Ok(false);
    };
    try_parts(from, rt, way, given, out)?;
    Ok(true)
}

// A proved loop has to end: it has a number of turns that no run uses up.
fn try_all<I: Read>(
    from: &mut I,
    rt: &impl Print,
    given: &mut [u8],
    out: &mut [u8],
) -> io::Result<()> {
    for _ in 0..u64::MAX {
        if !try_one(from, rt, given, out)? {
            break;
        }
    }
    Ok(())
}

fn main(rt: HostRuntime) -> io::Result<()> {
    let mut given = room::<MOST_GIVEN>();
    let mut out = room::<MOST_ROOM>();
    try_all(&mut rt.reader(), &rt, &mut given, &mut out)
}
