// The whole text of a session (§12), into a lent buffer: the lines of its records, and those of the board.

#![tactic(auto)]

ghost use Rattle.std.specs.Prelude.{◌≡◌, ◌<◌, ◌≤◌, length};
ghost use Rattle.memory.specs.Pieces.{memory};
ghost use Rattle.session_split.specs.Session.{most_bytes};
ghost use Rattle.session_text.specs.Out.{Puts};
ghost use Rattle.session_text.specs.Text.{Put};
ghost use Rattle.session_run.specs.Run.{run_on};
ghost use Rattle.session_print.specs.Print.{printed, text};
ghost use Rattle.session_print.specs.Contract.{Roomy, text_room};

use memory::{Board, EntryRow, PlaceRow, Sizes};
use session_end::Ran;
use session_text::Out;

// Runs a session on tables of the sizes that it asks, and puts its text.
fn run_board(
    session: &[u8],
    sizes: Sizes,
    first: u32,
    words: &mut [u32],
    records: &mut [u32],
    places: &mut [PlaceRow],
    entries: &mut [EntryRow],
    out: &mut Out<'_>,
)
    requires { (length session.now ≤ most_bytes) × (sizes.words < 65536) × (out.old.at ≡ 0) }
    ensures { Puts text_room out.old out.new
        (printed sizes first (run_on sizes first (memory words.old records.old places.old entries.old) session.now)) }
{
    match session_run::run_records(session, sizes, first, words, records, places, entries, out) {
        Ran::Whole => {
            let board = Board {
                sizes,
                words,
                records,
                places,
                entries,
            };
            session_show::put_board(board, first, out);
        }
        Ran::Stopped => (),
    }
}

// Runs a session on the parts of the lent tables that its first record asks, and puts its text.
fn put_text(
    session: &[u8],
    words: &mut [u32],
    records: &mut [u32],
    places: &mut [PlaceRow],
    entries: &mut [EntryRow],
    out: &mut Out<'_>,
)
    requires roomy { Roomy (length words.old) (length records.old) (length places.old) (length entries.old) }
    requires fresh { out.old.at ≡ 0 }
    ensures { Puts text_room out.old out.new (text session.now) }
{
    let next = session_split::split_off(session, true);
    let Ok(Some(kind)) = next else {
        session_end::put_end(out, 0, next);
        return;
    };
    let body = session_split::body(session, kind);
    let sizes = session_ask::sizes_of(body);
    let first = session_ask::first_of(body);
    let w = sizes.words.min(memory::MOST_WORDS);
    let r = sizes.records.min(memory::MOST_RECORDS);
    let t = sizes.tasks.min(memory::MOST_TASKS);
    let e = sizes.run_start(t);
    run_board(
        session,
        sizes,
        first,
        &mut words[..w],
        &mut records[..r],
        &mut places[..t],
        &mut entries[..e],
        out,
    );
}

// The same into a lent buffer by itself: answers how many bytes the text has.
pub fn run(
    session: &[u8],
    words: &mut [u32],
    records: &mut [u32],
    places: &mut [PlaceRow],
    entries: &mut [EntryRow],
    out: &mut [u8],
) -> usize
    requires { Roomy (length words.old) (length records.old) (length places.old) (length entries.old) }
    ensures { Put text_room out.old 0 (text session.now) out.new result }
{
    let mut out = Out { buffer: out, at: 0 };
    put_text(session, words, records, places, entries, &mut out);
    out.at
}
