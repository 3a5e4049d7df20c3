// The request Write, on a table known to be sound.

#![tactic(auto)]

ghost use Rattle.std.specs.Prelude.{◌≡◌, true, List, ℕ, suc, ◌<◌, eqb};
ghost use Rattle.memory.specs.Pieces.{memory, most_words, top_version};
ghost use Rattle.memory.specs.Sound.{sound};
ghost use Rattle.memory.specs.Numbers.{replied};
ghost use Rattle.memory.specs.Requests as spec;
ghost use Rattle.task_permit.specs.Contract.{answered};
ghost use Rattle.task_descriptor.specs.Contract.{Within, Addable, grown};

use memory::{Answer, Entry, EntryRow, Place, PlaceRow, Refusal, Sizes};
use request_access::Access;

// §6.10: whether no version follows the old one of an entry. Both functions below ask it first: each is held to the definition `store`,
// which begins with it.
fn at_top(entry: Entry) -> bool
    ensures { result ≡ eqb entry.old.version top_version }
{
    entry.old.version == memory::TOP_VERSION
}

// Write on an entry that the task has, among its first n.
fn write_known(
    sizes: Sizes,
    entries: &mut [EntryRow],
    task: usize,
    n: usize,
    entry: Entry,
    address: usize,
    value: u32,
) -> Result<Answer, Refusal>
    requires { Within sizes entries.old task n × (address < most_words) }
    ensures { (ws : List ℕ) (rs : List ℕ) (ps : List (List ℕ)) → replied (answered result) (memory ws rs ps entries.new)
        ≡ spec.store sizes (memory ws rs ps entries.old) (memory ws rs ps entries.old) task address value n entry }
{
    if at_top(entry) {
        return Err(Refusal::NoVersion);
    }
    task_descriptor::write_run(sizes, entries, task, n, address, value);
    Ok(Answer::plain(0))
}

// Write on an entry that is to be added to those of a task, which has this place.
fn write_new(
    sizes: Sizes,
    places: &mut [PlaceRow],
    entries: &mut [EntryRow],
    task: usize,
    place: Place,
    entry: Entry,
    address: usize,
    value: u32,
) -> Result<Answer, Refusal>
    requires { Addable sizes places.old entries.old task place entry × (address < most_words) }
    ensures { (ws : List ℕ) (rs : List ℕ) → replied (answered result) (memory ws rs places.new entries.new)
        ≡ spec.store sizes (memory ws rs places.old entries.old) (grown sizes (memory ws rs places.old entries.old) task place entry) task address value (suc place.count) entry }
{
    if at_top(entry) {
        return Err(Refusal::NoVersion);
    }
    // The place is passed on by value and used again: it is copied, which it would not be if a part of it had a model.
    task_descriptor::add_entry(sizes, places, entries, task, place, entry);
    task_descriptor::write_run(sizes, entries, task, place.count + 1, address, value);
    Ok(Answer::plain(0))
}

// §6.10, §6.11: Write, on the entry that the task has for the address or on one that is added.
pub fn write_sound(
    sizes: Sizes,
    words: &[u32],
    records: &[u32],
    places: &mut [PlaceRow],
    entries: &mut [EntryRow],
    task: usize,
    address: usize,
    value: u32,
) -> Result<Answer, Refusal>
    requires { sound sizes (memory words.now records.now places.old entries.old) ≡ true }
    ensures { replied (answered result) (memory words.now records.now places.new entries.new) ≡ spec.write sizes (memory words.now records.now places.old entries.old) task address value }
{
    let access = request_access::reached(sizes, words, records, places, entries, task, address)?;
    match access {
        Access::Known(place, entry) => write_known(
            sizes,
            entries,
            task,
            place.count,
            entry,
            address,
            value,
        ),
        Access::New(place, entry) => write_new(
            sizes, places, entries, task, place, entry, address, value,
        ),
    }
}
