// The opening of a board (§5.1 to §5.4).

#![tactic(auto)]

ghost use Rattle.std.specs.Prelude.{◌≡◌};
ghost use Rattle.memory.specs.Pieces.{memory};
ghost use Rattle.memory.specs.Numbers.{replied};
ghost use Rattle.memory.specs.Requests.{open_board};

use memory::{Answer, Board, EntryRow, PlaceRow, Refusal, Sizes};

// §5.2, §5.3: 2 for sizes and first version, then 1 for the lengths, or all four tables are filled.
pub fn open_board(
    sizes: Sizes,
    first: u32,
    words: &mut [u32],
    records: &mut [u32],
    places: &mut [PlaceRow],
    entries: &mut [EntryRow],
) -> Answer
    ensures { replied result (memory words.new records.new places.new entries.new)
        ≡ open_board sizes first (memory words.old records.old places.old entries.old) }
{
    // A refusal becomes an answer at once: nobody above would go on with one.
    if !table_parts::sizes_ok(sizes) {
        return Answer::from(Refusal::OutOfRange);
    }
    if !table_parts::in_range(1, memory::TOP_VERSION as usize, first as usize) {
        return Answer::from(Refusal::OutOfRange);
    }
    let board = Board {
        sizes,
        words,
        records,
        places,
        entries,
    };
    if !table_parts::lengths_ok(board) {
        return Answer::from(Refusal::Unsound);
    }
    // Every record has the first version, every task is Idle with no entries, and all else is zeros.
    words.fill(0);
    records.fill(first);
    places.fill([0; memory::PLACE_WIDTH]);
    entries.fill([0; memory::ENTRY_WIDTH]);
    Answer::plain(0)
}
