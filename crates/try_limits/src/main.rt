// The limits of §2 to §10, tried one by one: sizes, lent lengths, the 64 entries, every refusal with what it leaves behind, which
// number wins where two apply, and a table that is unsound by each clause. The cases are the script on standard input.

#![tactic(auto)]

mod board;
mod cases;
mod line;
mod marks;
mod play;
mod telling;

use program_input::{read_full, room};
use std::io;

// One byte past the longest script.
const ROOM: usize = 16385;

fn main(rt: HostRuntime) -> io::Result<()> {
    let mut script = room::<ROOM>();
    let length = read_full(&mut rt.reader(), &mut script)?;
    if length == ROOM {
        println!(rt; "The script is too long.")?;
    }
    play::whole(&rt, &script[..length])
}
