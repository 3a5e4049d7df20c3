// Plays a session on lent tables: they are looked at, and the text goes into a lent buffer (§12).

#![tactic(auto)]

ghost use Rattle.std.specs.Prelude.{◌≡◌};
ghost use Rattle.memory.specs.Pieces.{memory};
ghost use Rattle.session_play.specs.Contract.{playing};

use memory::{EntryRow, PlaceRow};

// Bytes of the longest text there is: the claim `TextIsShort` in specs/.
pub const MOST_TEXT: usize = 518804;

// Plays a session once, and prints as C's snprintf does: it answers the length of the whole text and writes as much of it as the
// lent buffer holds. No byte 0 ends it. The lent tables are of the largest sizes: where one is too short, nothing is written, and no
// length is answered.
pub fn play(
    session: &[u8],
    words: &mut [u32],
    records: &mut [u32],
    places: &mut [PlaceRow],
    entries: &mut [EntryRow],
    out: &mut [u8],
) -> Option<usize>
    ensures { playing (memory words.old records.old places.old entries.old)
        session.now out.old ≡ (result, out.new) }
{
    if words.len() < memory::MOST_WORDS
        || records.len() < memory::MOST_RECORDS
        || places.len() < memory::MOST_TASKS
        || entries.len() < memory::MOST_ROWS
    {
        return None;
    }
    Some(session_print::run(session, words, records, places, entries, out))
}
