// The sizes of a board once they are known to be in range, and the tasks and records that there are at such sizes.
ghost use Rattle.std.specs.Prelude.{◌<◌, ◌≤◌};
ghost use Rattle.try_serial.specs.declared.limits.TheConstants.{WORDS, RECORDS, TASKS};

use crate::asked::Lent;
use crate::limits;
use crate::refusal::Refusal;
use memory::Sizes;

// A task of a board, and a record of one. Two types, so that neither is taken for the other.
#[derive(Clone, Copy, PartialEq, Eq)]
pub struct Task {
    pub index: usize,
    ghost in_range: { index < TASKS },
}

#[derive(Clone, Copy)]
pub struct Record {
    pub index: usize,
    ghost in_range: { index < RECORDS },
}

#[derive(Clone, Copy)]
pub struct Board {
    words: usize,
    records: usize,
    tasks: usize,
    ghost words_in_range: { words ≤ WORDS },
    ghost some_record: { 0 < records },
    ghost records_in_range: { records ≤ RECORDS },
    ghost tasks_in_range: { tasks ≤ TASKS },
}

// May a board of these sizes be opened at this version?
pub fn opens(first: u32, sizes: Sizes) -> bool {
    (1..=limits::TOP).contains(&first) && Board::of(sizes).is_some()
}

impl Board {
    // The smallest one.
    pub fn smallest() -> Board {
        Board {
            words: 1,
            records: 1,
            tasks: 1,
        }
    }

    // The board of these sizes, if they are in range.
    fn of(sizes: Sizes) -> Option<Board> {
        let Sizes {
            words,
            records,
            tasks,
        } = sizes;
        let in_range = (1..=limits::WORDS).contains(&words)
            && (1..=limits::RECORDS).contains(&records)
            && (1..=limits::TASKS).contains(&tasks);
        if in_range {
            Some(Board {
                words,
                records,
                tasks,
            })
        } else {
            None
        }
    }

    // The board of a call, if the tables are lent as long as its sizes ask too.
    pub fn lent(lent: Lent) -> Result<Board, Refusal> {
        let board = Board::of(lent.sizes).ok_or(Refusal::Unsound)?;
        let fits = lent.words == board.words
            && lent.records == board.records
            && lent.places == board.tasks
            && lent.entries / limits::LINES == board.tasks
            && lent.entries % limits::LINES == 0;
        if fits {
            Ok(board)
        } else {
            Err(Refusal::Unsound)
        }
    }

    pub fn has(self, address: usize) -> bool {
        address < self.words
    }

    pub fn record_of(self, address: usize) -> Record {
        Record {
            index: address % self.records,
        }
    }

    pub fn task(self, index: usize) -> Result<Task, Refusal> {
        if index < self.tasks {
            Ok(Task { index })
        } else {
            Err(Refusal::NoTask)
        }
    }
}
