// A new address of a task, on a table known to be sound: its entry made, or what refuses it.

#![tactic(auto)]

ghost use Rattle.std.specs.Prelude.{◌≡◌, map, ◌<◌, ◌≤◌};
ghost use Rattle.memory.specs.Pieces as spec;
ghost use Rattle.memory.specs.Pieces.{entry_of, most_records};
ghost use Rattle.memory.specs.Lent.{lent};
ghost use Rattle.request_fresh.specs.Contract.{entry_beside, overtaken_by, fresh_beside, new_entry};

use memory::{Board, Entry, EntryRow, Refusal, Seen, Sizes, SoundBoard};

// The first of a task's entries on the record of an address.
fn entry_beside(sizes: Sizes, run: &[EntryRow], address: u32) -> Option<Entry>
    requires { (0 < sizes.records) × (sizes.records ≤ most_records) }
    ensures { result ≡ entry_beside sizes.records address (map entry_of run.now) }
{
    let record = sizes.record_of(address);
    table_search::find_record(run, sizes.records as u32, record as u32)
}

// §6.7: whether the task was overtaken at a new address.
fn is_overtaken(version: u32, beside: Option<Entry>) -> bool
    ensures { result ≡ overtaken_by version beside }
{
    beside.is_some_and(|entry| version != entry.old.version)
}

// §6.8: the entry for a new address.
fn fresh(address: u32, seen: Seen, beside: Option<Entry>) -> Entry
    ensures { result ≡ fresh_beside address seen beside }
{
    let version = beside.map_or(seen.version, |entry| entry.new.version);
    Entry {
        address,
        old: seen,
        new: Seen { version, ..seen },
    }
}

// Of an address that none of the task's entries is for.
#[tactic(auto, using(memory::proofs::Facts::words_most, memory::proofs::Facts::tasks_most, memory::proofs::Facts::run_fits, memory::proofs::Facts::some_record, memory::proofs::Facts::records_most))]
pub fn new_address(
    sound: SoundBoard,
    task: usize,
    count: usize,
    address: usize,
) -> Result<Entry, Refusal>
    requires { (task < sound.board.sizes.tasks) × (address < sound.board.sizes.words) × ((spec.place (lent sound.board) task).count ≡ count) }
    ensures { result ≡ new_entry sound.entry.board.sizes (lent sound.entry.board) task address count }
{
    let Board { sizes, entries, .. } = sound.board;
    let seen = table_look::logical(sound, address);
    let run = table_search::run_of(sizes, entries, task, count);
    let at = address as u32;
    let beside = entry_beside(sizes, run, at);
    let full = sizes.limit() <= count;
    let overtaken = is_overtaken(seen.version, beside);
    if full {
        return Err(Refusal::Full);
    }
    if overtaken {
        return Err(Refusal::Overtaken);
    }
    Ok(fresh(at, seen, beside))
}
