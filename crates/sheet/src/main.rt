// Reads a schedule in comma-separated text from standard input and prints the session, or the other way round (§18). On a refusal it
// prints nothing, and says on standard error how many lines were good and the number. Reading and writing are all that is done here.

#![tactic(auto)]

#[cfg(test)]
mod tests;

use program_input::{read_full, room};
use sheet_read::Reader;
use sheet_text::{Done, Refused};
use std::io;
use std::io::Read;
use std::rt::Env;

// Prints the first bytes of a buffer, or says the refusal: good lines, blank, number.
fn print(
    rt: &(impl Print + Eprint),
    answer: Result<Done, Refused>,
    buffer: &[u8],
) -> io::Result<()> {
    match answer {
        Ok(done) if done.length <= buffer.len() => rt.write_all(&buffer[..done.length]),
        Ok(_) => Ok(()),
        Err(refused) => {
            let lines = refused.lines;
            let number = refused.cause.number();
            eprintln!(rt; "{lines} {number}")
        }
    }
}

// Reads the whole text, part by part: one of any length goes through this buffer. A proved loop has to end, and nothing says that an
// input does: so the loop has a number of turns that no run uses up.
fn read_all<I: Read>(from: &mut I, session: &mut [u8]) -> io::Result<Reader> {
    let mut part = room::<65536>();
    let mut reader = Reader::begin();
    for _ in 0..u64::MAX {
        let got = read_full(from, &mut part)?;
        reader = reader.feed(&part[..got], session);
        if got < part.len() {
            break;
        }
    }
    Ok(reader)
}

// From text to session. Text is read once, since the room is that of the longest session.
fn to_session(rt: &(impl Input + Print + Eprint)) -> io::Result<()> {
    let mut session = room::<{ session_split::MOST_BYTES }>();
    let reader = read_all(&mut rt.reader(), &mut session)?;
    let answer = reader.finish(&mut session).known();
    print(rt, answer, &session)
}

// No text is longer than four times its session, by `WrittenIsShort` in crates/sheet_text.
const TEXT_ROOM: usize = 4 * session_split::MOST_BYTES;

// From session to text.
fn to_text(rt: &(impl Input + Print + Eprint)) -> io::Result<()> {
    let mut session = room::<{ session_split::ROOM }>();
    let mut text = room::<TEXT_ROOM>();
    let length = read_full(&mut rt.reader(), &mut session)?;
    let answer = sheet_write::write(&session[..length], &mut text);
    print(rt, answer, &text)
}

// The first argument is `read` or `write`; tools/sheet gives no other.
fn main(rt: HostRuntime) -> io::Result<()> {
    let mut word = room::<4096>();
    let length = rt.arg(1, &mut word).unwrap_or(0);
    if length == 0 {
        return Ok(());
    }
    // Stays a byte: it is what was typed.
    if word[0] == b'w' {
        to_text(&rt)
    } else {
        to_session(&rt)
    }
}
