// The parts of a sound table (§10), each by itself: sizes, lent lengths, an entry, two entries, what a record holds.

#![tactic(auto)]

ghost use Rattle.std.specs.Prelude.{◌≡◌, ◌%◌, ◌<◌, ◌≤◌, true};
ghost use Rattle.memory.specs.Lent.{lent};
ghost use Rattle.memory.specs.Pieces.{most_words, most_records, held_of, entry_of};
ghost use Rattle.memory.specs.Sound.{within, sizes_ok, lengths_ok, entry_ok};
ghost use Rattle.table_parts.specs.Parts.{agree, record_ok, inverse};

use memory::{Board, EntryRow, Sizes};

// From the low number to the high one, both included.
pub fn in_range(low: usize, high: usize, n: usize) -> bool
    ensures { result ≡ within low high n }
{
    low <= n && n <= high
}

// §10.2: the sizes.
pub fn sizes_ok(sizes: Sizes) -> bool
    ensures { result ≡ sizes_ok sizes }
{
    in_range(1, memory::MOST_WORDS, sizes.words)
        && in_range(1, memory::MOST_RECORDS, sizes.records)
        && in_range(1, memory::MOST_TASKS, sizes.tasks)
}

// §10.2: the lent lengths.
pub fn lengths_ok(board: Board) -> bool
    requires { sizes_ok board.sizes ≡ true }
    ensures { result ≡ lengths_ok board.entry.sizes (lent board.entry) }
{
    let Board {
        sizes,
        words,
        records,
        places,
        entries,
    } = board;
    words.len() == sizes.words
        && records.len() == sizes.records
        && places.len() == sizes.tasks
        && entries.len() == sizes.run_start(sizes.tasks)
}

// §10.5: an entry by itself.
pub fn entry_ok(sizes: Sizes, entry: EntryRow) -> bool
    ensures { result ≡ entry_ok sizes (entry_of entry) }
{
    let address = entry[0] as usize;
    let old = entry[3] as usize;
    let new = entry[4] as usize;
    if sizes.words <= address {
        return false;
    }
    if !in_range(1, memory::TOP_VERSION as usize, old) {
        return false;
    }
    if !in_range(1, memory::TOP_VERSION as usize, new) {
        return false;
    }
    // The same or the next: with both in their range the difference tells, and one test of it takes less time than two.
    entry[4].wrapping_sub(entry[3]) <= 1
}

// §10.6: two entries on one record.
pub fn agree(entry: EntryRow, other: EntryRow) -> bool
    ensures { result ≡ agree (entry_of entry) (entry_of other) }
{
    entry[0] != other[0] && (entry[3] == other[3] && entry[4] == other[4])
}

// One, in numbers with 32 bits behind the point.
const ONE: usize = 4294967296;

// One divided by the number of records, and a little more, in such numbers.
pub fn inverse_of(sizes: Sizes) -> usize
    requires { (0 < sizes.records) × (sizes.records ≤ most_records) }
    ensures { result ≡ inverse sizes.records }
{
    ONE / sizes.records + 1
}

// The record of an entry's address, by that inverse: a walk over many entries divides once. Exact up to the limits of a board.
pub fn record_of(sizes: Sizes, by: usize, entry: EntryRow) -> usize
    requires { (0 < sizes.records) × (sizes.records ≤ most_records) × ((entry_of entry).address < most_words) × (by ≡ inverse sizes.records) }
    ensures { (result ≡ (entry_of entry).address % sizes.records) × (result < sizes.records) }
{
    let address = entry[0] as usize;
    let quotient = address * by / ONE;
    address - quotient * sizes.records
}

// §10.7, §10.8: what a record holds, where it is known whether its owner has an entry on it.
pub fn record_ok(number: u32, owned: bool) -> bool
    ensures { result ≡ record_ok (held_of number) owned }
{
    if number < memory::FIRST_OWNER {
        1 <= number
    } else {
        owned
    }
}
