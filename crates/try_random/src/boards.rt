// The boards that are played on, a kind for each schedule.
use crate::dice::{Moment, What};
use try_calls::exactly;
use try_serial::asked::Lent;
use try_serial::limits;

// A board to play on: one in `odd` calls is any call at all, one in `ends` requests of an open transaction ends it, `waits` of eight
// ends are a Wait, one in `writes` uses of an address is a Write, and addresses are drawn below `drawn`.
#[derive(Clone, Copy)]
pub struct Board {
    pub lent: Lent,
    pub first: u32,
    pub calls: u32,
    pub odd: usize,
    pub ends: usize,
    pub waits: usize,
    pub writes: usize,
    pub drawn: usize,
}

impl Board {
    fn of_sizes(words: usize, records: usize, tasks: usize) -> Board {
        Board {
            lent: exactly(words, records, tasks),
            first: 1,
            calls: 120,
            odd: 12,
            ends: 4,
            waits: 2,
            writes: 2,
            drawn: words,
        }
    }

    fn small(now: Moment) -> Board {
        let words = now.from_one(What::Words, 8);
        let records = now.from_one(What::Records, 4);
        let tasks = now.from_one(What::Tasks, 4);
        Board {
            first: now.from_one(What::First, 3) as u32,
            ..Board::of_sizes(words, records, tasks)
        }
    }

    // Many tasks on few words.
    fn contended(now: Moment) -> Board {
        let words = now.from_one(What::Words, 4);
        let records = now.from_one(What::Records, 2);
        let tasks = now.from_one(What::Tasks, 8) + 3;
        Board {
            calls: 250,
            ends: 3,
            ..Board::of_sizes(words, records, tasks)
        }
    }

    // Many tasks that mostly listen, so that lists grow and lead on to others before somebody writes.
    fn listeners(now: Moment) -> Board {
        let records = now.from_one(What::Records, 4);
        let tasks = now.from_one(What::Tasks, 8) + 4;
        Board {
            calls: 600,
            ends: 3,
            waits: 5,
            writes: 8,
            ..Board::of_sizes(4, records, tasks)
        }
    }

    // Three versions are left at most and many words share a record, so that 8 and the overtaken before it are met.
    fn near_top(now: Moment) -> Board {
        let words = now.from_one(What::Words, 6) + 3;
        let records = now.from_one(What::Records, 2);
        let tasks = now.from_one(What::Tasks, 4);
        Board {
            first: limits::TOP - now.draw(What::First, 4) as u32,
            calls: 200,
            ..Board::of_sizes(words, records, tasks)
        }
    }

    // Transactions that hardly end, so that all 64 entries are used.
    fn long(now: Moment) -> Board {
        Board {
            calls: 400,
            odd: 400,
            ends: 150,
            ..Board::of_sizes(120, now.from_one(What::Records, 8), 2)
        }
    }

    // The largest board. The addresses that are drawn share records.
    fn largest() -> Board {
        Board {
            calls: 1000,
            ends: 6,
            drawn: 64,
            ..Board::of_sizes(limits::WORDS, limits::RECORDS, limits::TASKS)
        }
    }

    // The board of a schedule, by its number.
    pub fn of(schedule: u32) -> Board {
        let now = Moment::of(schedule, 0);
        match schedule % 64 {
            63 => Board::largest(),
            kind if kind % 16 == 0 => Board::long(now),
            kind if kind % 4 == 1 => Board::contended(now),
            kind if kind % 4 == 2 => Board::near_top(now),
            kind if kind % 8 == 3 => Board::listeners(now),
            _ => Board::small(now),
        }
    }
}
