// A step over one entry: its word is written, its record is released. Each says the task's next phase.

#![tactic(auto)]

ghost use Rattle.std.specs.Prelude.{◌≡◌, [], ◌+◌, ◌<◌, length, get_or};
ghost use Rattle.memory.specs.Pieces.{entry_of, run_start, most_tasks};
ghost use Rattle.memory.specs.Step.{released};
ghost use Rattle.step_entry.specs.Contract.{MayWrite, Wrote, MayRelease, Released};

use memory::{Entry, EntryRow, Held, Outcome, Phase, Sizes};

// Entry i of a task.
pub fn entry_at(i: usize, sizes: Sizes, entries: &[EntryRow], task: usize) -> Entry
    requires { (task < most_tasks) × (run_start sizes task + i < length entries.now) }
    ensures { result ≡ entry_of (get_or entries.now (run_start sizes task + i) []) }
{
    Entry::from(entries[sizes.run_start(task) + i])
}

// §7.11: a step in Writing, on entry i.
pub fn write(i: usize, sizes: Sizes, words: &mut [u32], entries: &[EntryRow], task: usize) -> Phase
    requires { MayWrite sizes words.old entries.now task i }
    ensures { Wrote i sizes words.old entries.now task result words.new }
{
    let entry = entry_at(i, sizes, entries, task);
    words[entry.address as usize] = entry.new.value;
    Phase::Writing(i + 1)
}

// §7.13: the version that a record is given back with.
fn released(outcome: Outcome, entry: Entry) -> u32
    ensures { result ≡ released outcome entry }
{
    match outcome {
        Outcome::Committed => entry.new.version,
        Outcome::Failed | Outcome::Woken => entry.old.version,
    }
}

// §7.13: a step in Releasing, on entry i.
pub fn release(
    outcome: Outcome,
    i: usize,
    sizes: Sizes,
    records: &mut [u32],
    entries: &[EntryRow],
    task: usize,
) -> Phase
    requires { MayRelease sizes records.old entries.now task i }
    ensures { Released outcome i sizes records.old entries.now task result records.new }
{
    let entry = entry_at(i, sizes, entries, task);
    let at = sizes.record_of(entry.address);
    match Held::from(records[at]) {
        Held::Owner(owner) if owner == task => {
            records[at] = Held::Version(released(outcome, entry)).number();
        }
        // Stay two arms: one for both tells the proof nothing of what the record holds.
        Held::Owner(_) => {}
        Held::Version(_) => {}
    }
    Phase::Releasing(outcome, i + 1)
}
