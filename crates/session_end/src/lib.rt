// The end of a session's run (§12.4, §12.5): the numbers that stop the player, and the line of a record that is refused.

#![tactic(auto)]

ghost use Rattle.std.specs.Prelude.{◌≡◌, ◌<◌};
ghost use Rattle.memory.specs.Pieces.{Memory};
ghost use Rattle.session_end.specs.Run as spec;
ghost use Rattle.session_end.specs.Contract.{Runs, line_room};

use session_marks::Kind;
use session_split::Fault;
use session_text::Out;

// How a run went: its records to the last one, or a record that stopped the player.
#[derive(Clone, Copy, PartialEq, Eq)]
pub enum Ran {
    Whole,
    Stopped,
}

// §12.5: whether nothing is printed after a line with this number. It goes by numbers, as the definition does: a line shows a number,
// of the memory's or of the file's.
pub fn stops(number: u32) -> bool
    ensures { result ≡ spec.stops number }
{
    matches!(number, 2 | 10 | 11 | 12 | 14)
}

// §12.4: the end of a session, at a record that is refused or after the last one.
pub fn put_end(out: &mut Out<'_>, index: u32, end: Result<Option<Kind>, Fault>) -> Ran
    requires { out.old.at < 1000000000 }
    ensures { (m : Memory) → Runs line_room (spec.over index m end) out.old out.new result m }
{
    let Err(fault) = end else {
        return Ran::Whole;
    };
    out.put_line(index, fault.number(), 0);
    Ran::Stopped
}
