// A task's descriptor: its place and its run of entries, stored.

#![tactic(auto)]

ghost use Rattle.std.specs.Prelude.{◌≡◌, List, [], ℕ, ◌<◌, ◌≤◌, length, get_or, set, if◌then◌else◌};
ghost use Rattle.memory.specs.Pieces.{memory, most_words, top_version, position_of, row_of, entry_of, row_of_entry};
ghost use Rattle.memory.specs.Requests as spec;
ghost use Rattle.task_descriptor.specs.Contract.{rewritten, Within, grown, Addable};

use memory::{Entry, EntryRow, Place, PlaceRow, Seen, Sizes};

// A task's place, stored.
pub fn put_place(places: &mut [PlaceRow], task: usize, place: Place)
    requires { (task < length places.old) × (place.count < 4294967296) × (position_of place.phase < 4294967296) }
    ensures { places.new ≡ set places.old task (row_of place) }
{
    places[task] = place.row();
}

// Entry i of a run, stored.
pub fn put_entry(run: &mut [EntryRow], i: usize, entry: Entry)
    requires { i < length run.old }
    ensures { run.new ≡ set run.old i (row_of_entry entry) }
{
    run[i] = EntryRow::from(entry);
}

// §6.11: an entry after a Write of a value at an address.
#[tactic(auto, unfolding(memory::specs::Requests::written))]
fn written(entry: Entry, records: u32, address: u32, value: u32) -> Entry
    requires { (0 < records) × (entry.old.version ≤ top_version) }
    ensures { result ≡ spec.written records address value entry }
{
    let Entry { old, new, .. } = entry;
    let own = entry.address == address;
    let beside = entry.address % records == address % records;
    let new = Seen {
        value: if own { value } else { new.value },
        version: if beside { old.version + 1 } else { new.version },
    };
    Entry { new, ..entry }
}

// The first n entries of a run, each as a Write leaves it. Run and number stay two values: the part that starts at a task's run is lent
// (document 01).
pub fn write_entries(run: &mut [EntryRow], n: usize, records: u32, address: u32, value: u32)
    requires { (n ≤ length run.old) × (0 < records) × ((i : ℕ) → i < n → (entry_of (get_or run.old i [])).old.version ≤ top_version) }
    ensures { run.new ≡ rewritten (spec.written records address value) run.old n }
{
    for row in &mut run[..n] {
        let entry = Entry::from(*row);
        *row = EntryRow::from(written(entry, records, address, value));
    }
}

// The same in the entry table: the part that starts at the task's run is lent on.
pub fn write_run(
    sizes: Sizes,
    entries: &mut [EntryRow],
    task: usize,
    n: usize,
    address: usize,
    value: u32,
)
    requires { Within sizes entries.old task n × (address < most_words) }
    ensures { (ws : List ℕ) (rs : List ℕ) (ps : List (List ℕ)) → memory ws rs ps entries.new ≡ spec.rewrite sizes (memory ws rs ps entries.old) task (spec.written sizes.records address value) n }
{
    let start = sizes.run_start(task);
    write_entries(
        &mut entries[start..],
        n,
        sizes.records as u32,
        address as u32,
        value,
    );
}

// One more entry of a task: stored in its run, and counted in its place.
#[tactic(auto, using(memory::proofs::Limits::limit_most))]
pub fn add_entry(
    sizes: Sizes,
    places: &mut [PlaceRow],
    entries: &mut [EntryRow],
    task: usize,
    place: Place,
    entry: Entry,
)
    requires { Addable sizes places.old entries.old task place entry }
    ensures { (ws : List ℕ) (rs : List ℕ) → memory ws rs places.new entries.new ≡ grown sizes (memory ws rs places.old entries.old) task place entry }
{
    let start = sizes.run_start(task);
    let count = place.count;
    put_entry(&mut entries[start..], count, entry);
    put_place(places, task, place.counted(count + 1));
}
