// What the programs that try the memory share: the tables of a board, any call on parts of them that are lent as long as it is told,
// and whether two answers are one.

#![tactic(auto)]

pub mod same;

use memory::{EntryRow, Looked, PlaceRow, Sizes};
use try_serial::asked::{AnyCall, Lent};

const WORDS: usize = memory::MOST_WORDS + 1;

const RECORDS: usize = memory::MOST_RECORDS + 1;

const TASKS: usize = memory::MOST_TASKS + 1;

const ROWS: usize = memory::MOST_ENTRIES * TASKS;

// A board of these sizes, with tables lent as long as they ask. One task too many has its run of entries as well, so that a board can
// be tried that is too large by its number of tasks alone. With more than that there are none.
pub fn exactly(words: usize, records: usize, tasks: usize) -> Lent {
    Lent {
        sizes: Sizes {
            words,
            records,
            tasks,
        },
        words,
        records,
        places: tasks,
        entries: if tasks <= TASKS {
            memory::MOST_ENTRIES * tasks
        } else {
            0
        },
    }
}

// The tables of a board, long enough for the largest sizes and one more of each.
#[derive(Clone, Copy)]
pub struct Tables {
    pub words: [u32; WORDS],
    pub records: [u32; RECORDS],
    pub places: [PlaceRow; TASKS],
    pub entries: [EntryRow; ROWS],
}

impl Tables {
    pub fn new() -> Tables {
        Tables {
            words: [0; WORDS],
            records: [0; RECORDS],
            places: [[0; memory::PLACE_WIDTH]; TASKS],
            entries: [[0; memory::ENTRY_WIDTH]; ROWS],
        }
    }

    // Any call, on parts of the tables, and nothing where a part is not there.
    pub fn ask(&mut self, call: AnyCall, lent: Lent) -> Option<Looked> {
        let z = lent.sizes;
        let words = self.words.get_mut(..lent.words)?;
        let records = self.records.get_mut(..lent.records)?;
        let places = self.places.get_mut(..lent.places)?;
        let entries = self.entries.get_mut(..lent.entries)?;
        Some(match call {
            AnyCall::Open(first) => Looked::from(calls::open_board(
                z, first, words, records, places, entries,
            )),
            AnyCall::Look(a) => calls::look(z, words, records, places, entries, a),
            AnyCall::Ask(request) => Looked::from(calls::ask(
                z, words, records, places, entries, request,
            )),
        })
    }
}
