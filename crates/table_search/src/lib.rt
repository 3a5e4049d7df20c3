// The entries of a task, and the search for one among them: by its address, or by its record.

#![tactic(auto)]

ghost use Rattle.std.specs.Prelude.{◌≡◌, ◌+◌, map, ◌<◌, ◌≤◌, length, take, drop};
ghost use Rattle.memory.specs.Pieces.{entry_of, most_tasks, run_start};
ghost use Rattle.memory.specs.Logical.{index_of, index_on};
ghost use Rattle.table_search.specs.Contract.{found};

use memory::{Entry, EntryRow, Sizes};

// §3.7: as many rows of a task's run as its place says.
pub fn run_of(sizes: Sizes, entries: &[EntryRow], task: usize, count: usize) -> &[EntryRow]
    requires { (task ≤ most_tasks) × (run_start sizes task + count ≤ length entries.now) }
    ensures { result.now ≡ take count (drop (run_start sizes task) entries.now) }
{
    let start = sizes.run_start(task);
    &entries[start..start + count]
}

// The entry for an address, looked for from the newest to the oldest: who reads a word often writes it next.
// It and the next stay two: they are two lines each, and their laws are of two definitions.
pub fn find_address(run: &[EntryRow], address: u32) -> Option<Entry>
    ensures { result ≡ found (index_of address (map entry_of run.now)) (map entry_of run.now) }
{
    let row = run.iter().rev().find(|row| row[0] == address);
    row.map(|row| Entry::from(*row))
}

// The first entry on a record. All entries on a record agree in their versions, so which of them is found makes no difference.
pub fn find_record(run: &[EntryRow], records: u32, record: u32) -> Option<Entry>
    requires { 0 < records }
    ensures { result ≡ found (index_on records «record» (map entry_of run.now)) (map entry_of run.now) }
{
    let row = run.iter().find(|row| row[0] % records == record);
    row.map(|row| Entry::from(*row))
}
