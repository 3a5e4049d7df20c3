// The board on which the cases are tried, and what a call does to it.
use memory::{Looked, PlaceRow};
use try_calls::{Tables, exactly};
use try_serial::asked::{AnyCall, Lent};

// A number of the tables: of a record, of a column of a task's place, or of a column of an entry.
#[derive(Clone, Copy)]
pub enum Cell {
    Record(usize),
    Place(usize, usize),
    Entry(usize, usize),
}

// How many numbers changed, and how many of them in a task's place.
#[derive(Clone, Copy)]
pub struct Changed {
    pub all: usize,
    pub own: usize,
}

// What a call answered, if it could be asked, and what it changed.
#[derive(Clone, Copy)]
pub struct Seen {
    pub looked: Option<Looked>,
    pub changed: Changed,
}

// The tables, what of them is lent, and sound ones that are put back after they were spoiled.
#[derive(Drop)]
pub struct Board {
    tables: Tables,
    sound: Tables,
    pub lent: Lent,
}

// Nothing is stored past the end.
fn put(numbers: &mut [u32], at: usize, number: u32) {
    if let Some(there) = numbers.get_mut(at) {
        *there = number;
    }
}

fn differing(before: &[u32], now: &[u32]) -> usize {
    before.iter().zip(now).filter(|(x, y)| x != y).count()
}

fn compared(before: &Tables, now: &Tables, task: usize) -> Changed {
    let places = differing(before.places.as_flattened(), now.places.as_flattened());
    let entries = differing(before.entries.as_flattened(), now.entries.as_flattened());
    let own = before.places.get(task).zip(now.places.get(task));
    Changed {
        all: differing(&before.words, &now.words)
            .saturating_add(differing(&before.records, &now.records))
            .saturating_add(places)
            .saturating_add(entries),
        own: own.map_or(0, |(before, now)| differing(before, now)),
    }
}

impl Board {
    pub fn new() -> Board {
        Board {
            tables: Tables::new(),
            sound: Tables::new(),
            lent: exactly(1, 1, 1),
        }
    }

    // The board is kept as a sound one, and put back.
    pub fn keep(&mut self) {
        self.sound = self.tables;
    }

    pub fn put_back(&mut self) {
        self.tables = self.sound;
    }

    // A number stored straight into the tables.
    pub fn store(&mut self, cell: Cell, number: u32) {
        match cell {
            Cell::Record(r) => put(&mut self.tables.records, r, number),
            Cell::Place(t, column) => {
                if let Some(row) = self.tables.places.get_mut(t) {
                    put(row, column, number);
                }
            }
            Cell::Entry(e, column) => {
                if let Some(row) = self.tables.entries.get_mut(e) {
                    put(row, column, number);
                }
            }
        }
    }

    pub fn place(&self, task: usize) -> PlaceRow {
        self.tables
            .places
            .get(task)
            .copied()
            .unwrap_or([0; memory::PLACE_WIDTH])
    }

    pub fn ask(&mut self, call: AnyCall) -> Option<Looked> {
        self.tables.ask(call, self.lent)
    }

    // A call by a task, with the tables compared to what they were before.
    pub fn see(&mut self, call: AnyCall, task: usize) -> Seen {
        let before = self.tables;
        let looked = self.ask(call);
        Seen {
            looked,
            changed: compared(&before, &self.tables, task),
        }
    }
}
