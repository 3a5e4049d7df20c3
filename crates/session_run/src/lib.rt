// The run of a session's records, and the lines that they print (§12), into a lent buffer.

#![tactic(auto)]

ghost use Rattle.std.specs.Prelude.{◌≡◌, ◌<◌, ◌≤◌, length};
ghost use Rattle.memory.specs.Pieces.{memory};
ghost use Rattle.session_split.specs.Session.{most_bytes};
ghost use Rattle.session_end.specs.Contract.{Runs};
ghost use Rattle.session_run.specs.Run as spec;
ghost use Rattle.session_run.specs.Contract.{records_room};

use memory::{EntryRow, PlaceRow, Sizes};
use session_end::Ran;
use session_text::Out;

// §12.2, §12.3: runs the records of a session one after the other, and puts their lines.
pub fn run_records(
    session: &[u8],
    sizes: Sizes,
    first: u32,
    words: &mut [u32],
    records: &mut [u32],
    places: &mut [PlaceRow],
    entries: &mut [EntryRow],
    out: &mut Out<'_>,
) -> Ran
    requires { (length session.now ≤ most_bytes) × (out.old.at < 1000000) }
    ensures { Runs records_room
        (spec.run_on sizes first (memory words.old records.old places.old entries.old) session.now)
        out.old out.new result
        (memory words.new records.new places.new entries.new) }
{
    let mut from: usize = 0;
    let mut index: u32 = 0;
    // Stays a loop that counts: the records say where the next one begins, and a `for` would need an end that no session reaches.
    loop {
        let rest = &session[from..];
        let next = session_split::split_off(rest, index == 0);
        let Ok(Some(kind)) = next else {
            return session_end::put_end(out, index, next);
        };
        let body = session_split::body(rest, kind);
        let answer = session_ask::ask(sizes, first, words, records, places, entries, kind, body);
        out.put_line(index, answer.number, answer.value);
        if session_end::stops(answer.number) {
            return Ran::Stopped;
        }
        from += session_split::record_length(kind);
        index += 1;
    }
}
