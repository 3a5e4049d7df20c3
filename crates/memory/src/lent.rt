// The pieces as they stand in the lent tables: a record's number, a task's row and an entry's row, each taken apart and put together.
ghost use Rattle.std.specs.Prelude.{◌≡◌, ◌<◌};
ghost use Rattle.memory.specs.Pieces as spec;

use crate::{Entry, EntryRow, FIRST_OWNER, Held, Phase, Place, PlaceRow, Seen, TaskSet};

// §3.3: a record's number, taken apart.
impl From<u32> for Held {
    ghost from_gives = { λ number held. held ≡ spec.held_of number };

    #[tactic(auto, unfolding(crate::specs::Pieces::held_of))]
    fn from(number: u32) -> Held {
        if number < FIRST_OWNER {
            Held::Version(number)
        } else {
            Held::Owner((number - FIRST_OWNER) as usize)
        }
    }
}

impl Held {
    // The number that a record is stored as. That of every owner of a board is small enough. It stays a method, since a From asks
    // nothing.
    #[tactic(auto, unfolding(crate::specs::Pieces::number_of))]
    pub fn number(self) -> u32
        requires { spec.number_of self < 4294967296 }
        ensures { result ≡ spec.number_of self }
    {
        match self {
            Held::Version(version) => version,
            Held::Owner(task) => FIRST_OWNER + task as u32,
        }
    }
}

// §3.4: a task's row as its place.
impl From<PlaceRow> for Place {
    ghost from_gives = { λ row place. place ≡ spec.place_of row };

    #[tactic(auto, unfolding(crate::specs::Pieces::place_of))]
    fn from(row: PlaceRow) -> Place {
        let [count, code, position, joins] = row;
        Place {
            count: count as usize,
            phase: Phase::of(code, position as usize),
            joins: TaskSet::from(joins),
        }
    }
}

impl Place {
    // A place as a task's row. Count and position are small in every place that is stored. It stays a method, since a From asks nothing.
    #[tactic(auto, unfolding(crate::specs::Pieces::row_of))]
    pub fn row(self) -> PlaceRow
        requires { (self.count < 4294967296) × (spec.position_of self.phase < 4294967296) }
        ensures { result ≡ spec.row_of self }
    {
        [
            self.count as u32,
            self.phase.code(),
            self.phase.position() as u32,
            u32::from(self.joins),
        ]
    }
}

// §3.6: an entry's row as the entry, and back.
impl From<EntryRow> for Entry {
    ghost from_gives = { λ row entry. entry ≡ spec.entry_of row };

    #[tactic(auto, unfolding(crate::specs::Pieces::entry_of))]
    fn from(row: EntryRow) -> Entry {
        Entry {
            address: row[0],
            old: Seen {
                value: row[1],
                version: row[3],
            },
            new: Seen {
                value: row[2],
                version: row[4],
            },
        }
    }
}

impl From<Entry> for EntryRow {
    ghost from_gives = { λ entry row. row ≡ spec.row_of_entry entry };

    #[tactic(auto, unfolding(crate::specs::Pieces::row_of_entry))]
    fn from(entry: Entry) -> EntryRow {
        let Entry { address, old, new } = entry;
        [address, old.value, new.value, old.version, new.version]
    }
}
