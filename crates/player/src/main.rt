// Plays the session that standard input holds, and prints its text. Reading and writing are all that is done here.

#![tactic(auto)]

ghost use Rattle.std.specs.Prelude.{◌≡◌, length};
ghost use Rattle.session_play.specs.Claims.{most_text};

use program_input::{read_full, room};
use std::io;

// No text is longer, by `text_is_short` in crates/session_play.
fn room_for_text() -> [u8; session_play::MOST_TEXT]
    ensures { length result ≡ most_text }
{
    room()
}

// Prints the text, which was written whole if there was room for it.
fn print(rt: &impl Print, text: &[u8], length: usize) -> io::Result<()> {
    match text.get(..length) {
        Some(whole) => rt.write_all(whole),
        None => Ok(()),
    }
}

// Plays what was read, on tables of the largest sizes.
fn play_session(rt: &impl Print, session: &[u8], text: &mut [u8]) -> io::Result<()> {
    let mut words = [0u32; memory::MOST_WORDS];
    let mut records = [0u32; memory::MOST_RECORDS];
    let mut places = [[0u32; memory::PLACE_WIDTH]; memory::MOST_TASKS];
    let mut entries = [[0u32; memory::ENTRY_WIDTH]; memory::MOST_ROWS];
    let played = session_play::play(
        session,
        &mut words,
        &mut records,
        &mut places,
        &mut entries,
        text,
    );
    let Some(length) = played else {
        return Ok(());
    };
    print(rt, text, length)
}

fn main(rt: HostRuntime) -> io::Result<()> {
    let mut session = room::<{ session_split::ROOM }>();
    let mut text = room_for_text();
    let length = read_full(&mut rt.reader(), &mut session)?;
    play_session(&rt, &session[..length], &mut text)
}
