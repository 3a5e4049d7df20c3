// The calls under C names, for a game that links this memory. Each has the contract of the call that it passes on, and no `requires`.
// A lent slice is a pointer and a length in elements.

#![tactic(auto)]

ghost use Rattle.std.specs.Prelude.{◌≡◌};
ghost use Rattle.memory.specs.Pieces.{memory};
ghost use Rattle.memory.specs.Numbers.{replied};
ghost use Rattle.memory.specs.Requests as spec;
ghost use Rattle.memory.specs.Step.{step};

use memory::{Answer, EntryRow, Looked, PlaceRow, Sizes};

// §5.1 to §5.4: a board is opened.
#[unsafe(no_mangle)]
pub extern "C" fn chezumobari_open(
    sizes: Sizes,
    first: u32,
    words: &mut [u32],
    records: &mut [u32],
    places: &mut [PlaceRow],
    entries: &mut [EntryRow],
) -> Answer
    ensures { replied result (memory words.new records.new places.new entries.new)
        ≡ spec.open_board sizes first (memory words.old records.old places.old entries.old) }
{
    calls::open_board(sizes, first, words, records, places, entries)
}

// §6.4: a task begins a transaction.
#[unsafe(no_mangle)]
pub extern "C" fn chezumobari_start(
    sizes: Sizes,
    words: &[u32],
    records: &[u32],
    places: &mut [PlaceRow],
    entries: &[EntryRow],
    task: usize,
) -> Answer
    ensures { replied result (memory words.now records.now places.new entries.now)
        ≡ spec.start sizes (memory words.now records.now places.old entries.now) task }
{
    calls::start(sizes, words, records, places, entries, task)
}

// §6.13: a task gives its transaction up.
#[unsafe(no_mangle)]
pub extern "C" fn chezumobari_abort(
    sizes: Sizes,
    words: &[u32],
    records: &[u32],
    places: &mut [PlaceRow],
    entries: &[EntryRow],
    task: usize,
) -> Answer
    ensures { replied result (memory words.now records.now places.new entries.now)
        ≡ spec.abort sizes (memory words.now records.now places.old entries.now) task }
{
    calls::abort(sizes, words, records, places, entries, task)
}

// §6.14: from here on steps take, decide, write and release.
#[unsafe(no_mangle)]
pub extern "C" fn chezumobari_commit(
    sizes: Sizes,
    words: &[u32],
    records: &[u32],
    places: &mut [PlaceRow],
    entries: &[EntryRow],
    task: usize,
) -> Answer
    ensures { replied result (memory words.now records.now places.new entries.now)
        ≡ spec.commit sizes (memory words.now records.now places.old entries.now) task }
{
    calls::commit(sizes, words, records, places, entries, task)
}

// §6.15: from here on steps take and fall asleep.
#[unsafe(no_mangle)]
pub extern "C" fn chezumobari_wait(
    sizes: Sizes,
    words: &[u32],
    records: &[u32],
    places: &mut [PlaceRow],
    entries: &[EntryRow],
    task: usize,
) -> Answer
    ensures { replied result (memory words.now records.now places.new entries.now)
        ≡ spec.wait sizes (memory words.now records.now places.old entries.now) task }
{
    calls::wait(sizes, words, records, places, entries, task)
}

// §6.5 to §6.9: the value that the transaction finds at an address.
#[unsafe(no_mangle)]
pub extern "C" fn chezumobari_read(
    sizes: Sizes,
    words: &[u32],
    records: &[u32],
    places: &mut [PlaceRow],
    entries: &mut [EntryRow],
    task: usize,
    address: usize,
) -> Answer
    ensures { replied result (memory words.now records.now places.new entries.new)
        ≡ spec.read sizes (memory words.now records.now places.old entries.old) task address }
{
    calls::read(sizes, words, records, places, entries, task, address)
}

// §6.5 to §6.12: the value that the transaction would leave at an address.
#[unsafe(no_mangle)]
pub extern "C" fn chezumobari_write(
    sizes: Sizes,
    words: &[u32],
    records: &[u32],
    places: &mut [PlaceRow],
    entries: &mut [EntryRow],
    task: usize,
    address: usize,
    value: u32,
) -> Answer
    ensures { replied result (memory words.now records.now places.new entries.new)
        ≡ spec.write sizes (memory words.now records.now places.old entries.old) task address value }
{
    calls::write(sizes, words, records, places, entries, task, address, value)
}

// §7: one step of a task that takes, writes, releases or sleeps.
#[unsafe(no_mangle)]
pub extern "C" fn chezumobari_step(
    sizes: Sizes,
    words: &mut [u32],
    records: &mut [u32],
    places: &mut [PlaceRow],
    entries: &[EntryRow],
    task: usize,
) -> Answer
    ensures { replied result (memory words.new records.new places.new entries.now)
        ≡ step sizes (memory words.old records.old places.old entries.now) task }
{
    calls::step(sizes, words, records, places, entries, task)
}

// §5.5, §5.6: what stands at an address, for anybody.
#[unsafe(no_mangle)]
pub extern "C" fn chezumobari_look(
    sizes: Sizes,
    words: &[u32],
    records: &[u32],
    places: &[PlaceRow],
    entries: &[EntryRow],
    address: usize,
) -> Looked
    ensures { result ≡ spec.look sizes (memory words.now records.now places.now entries.now) address }
{
    calls::look(sizes, words, records, places, entries, address)
}
