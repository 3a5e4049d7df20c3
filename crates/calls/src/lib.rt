// The public calls: each asks first whether the table is sound, and has no `requires`. The requests have one call each, which lends
// no more than it needs, and one for all of them, `ask`.
// What a call answers and what every lent row holds afterwards is what its definition says (§5 to §7), in one equation.

#![tactic(auto)]

ghost use Rattle.std.specs.Prelude.{◌≡◌};
ghost use Rattle.memory.specs.Pieces.{memory};
ghost use Rattle.memory.specs.Calls.{call};
ghost use Rattle.memory.specs.Sound.{sound};
ghost use Rattle.memory.specs.Numbers.{replied, plain, refusal_number};
ghost use Rattle.memory.specs.declared.refusal.Refusal.TheVariants.{Unsound};
ghost use Rattle.memory.specs.Requests as spec;
ghost use Rattle.memory.specs.Step.{step};
ghost use Rattle.task_permit.specs.Contract.{answered};

use memory::{Answer, Board, Call, EntryRow, Looked, PlaceRow, Refusal, Sizes};

// §10: whether the tables are sound, which every call but the opening asks first.
// Stays asked in each call: each lends other tables to be changed, as the C interface has it, so that no closure fits them all.
fn is_sound(
    sizes: Sizes,
    words: &[u32],
    records: &[u32],
    places: &[PlaceRow],
    entries: &[EntryRow],
) -> bool
    ensures { result ≡ sound sizes (memory words.now records.now places.now entries.now) }
{
    table_sound::is_sound(Board {
        sizes,
        words,
        records,
        places,
        entries,
    })
}

// §10.1: what every call answers on an unsound table. The number has no value yet: where it is to have one, it goes here.
fn unsound() -> Answer
    ensures { result ≡ plain (refusal_number Unsound) }
{
    Refusal::Unsound.into()
}

// §6.1: what a request answers that did what it says, or that was refused.
fn answered(done: Result<Answer, Refusal>) -> Answer
    ensures { result ≡ answered done }
{
    done.unwrap_or_else(Answer::from)
}

// §5.1 to §5.4: a board is opened.
pub fn open_board(
    sizes: Sizes,
    first: u32,
    words: &mut [u32],
    records: &mut [u32],
    places: &mut [PlaceRow],
    entries: &mut [EntryRow],
) -> Answer
    ensures { replied result (memory words.new records.new places.new entries.new)
        ≡ spec.open_board sizes first (memory words.old records.old places.old entries.old) }
{
    table_open::open_board(sizes, first, words, records, places, entries)
}

// §6.4: a task begins a transaction.
#[tactic(auto, unfolding(memory::specs::Requests::start, memory::specs::Numbers::asked))]
pub fn start(
    sizes: Sizes,
    words: &[u32],
    records: &[u32],
    places: &mut [PlaceRow],
    entries: &[EntryRow],
    task: usize,
) -> Answer
    ensures { replied result (memory words.now records.now places.new entries.now)
        ≡ spec.start sizes (memory words.now records.now places.old entries.now) task }
{
    if !is_sound(sizes, words, records, places, entries) {
        return unsound();
    }
    let done = request_phase::start_sound(sizes, words, records, places, entries, task);
    answered(done)
}

// §6.13: a task gives its transaction up.
#[tactic(auto, unfolding(memory::specs::Requests::abort, memory::specs::Numbers::asked))]
pub fn abort(
    sizes: Sizes,
    words: &[u32],
    records: &[u32],
    places: &mut [PlaceRow],
    entries: &[EntryRow],
    task: usize,
) -> Answer
    ensures { replied result (memory words.now records.now places.new entries.now)
        ≡ spec.abort sizes (memory words.now records.now places.old entries.now) task }
{
    if !is_sound(sizes, words, records, places, entries) {
        return unsound();
    }
    let done = request_phase::abort_sound(sizes, words, records, places, entries, task);
    answered(done)
}

// §6.14: from here on steps take, decide, write and release.
#[tactic(auto, unfolding(memory::specs::Requests::commit, memory::specs::Numbers::asked))]
pub fn commit(
    sizes: Sizes,
    words: &[u32],
    records: &[u32],
    places: &mut [PlaceRow],
    entries: &[EntryRow],
    task: usize,
) -> Answer
    ensures { replied result (memory words.now records.now places.new entries.now)
        ≡ spec.commit sizes (memory words.now records.now places.old entries.now) task }
{
    if !is_sound(sizes, words, records, places, entries) {
        return unsound();
    }
    let done = request_commit::commit_sound(sizes, words, records, places, entries, task);
    answered(done)
}

// §6.15: from here on steps take and fall asleep.
#[tactic(auto, unfolding(memory::specs::Requests::wait, memory::specs::Numbers::asked))]
pub fn wait(
    sizes: Sizes,
    words: &[u32],
    records: &[u32],
    places: &mut [PlaceRow],
    entries: &[EntryRow],
    task: usize,
) -> Answer
    ensures { replied result (memory words.now records.now places.new entries.now)
        ≡ spec.wait sizes (memory words.now records.now places.old entries.now) task }
{
    if !is_sound(sizes, words, records, places, entries) {
        return unsound();
    }
    let done = request_commit::wait_sound(sizes, words, records, places, entries, task);
    answered(done)
}

// §6.5 to §6.9: the value that the transaction finds at an address.
#[tactic(auto, unfolding(memory::specs::Requests::read, memory::specs::Requests::addressed, memory::specs::Numbers::asked))]
pub fn read(
    sizes: Sizes,
    words: &[u32],
    records: &[u32],
    places: &mut [PlaceRow],
    entries: &mut [EntryRow],
    task: usize,
    address: usize,
) -> Answer
    ensures { replied result (memory words.now records.now places.new entries.new)
        ≡ spec.read sizes (memory words.now records.now places.old entries.old) task address }
{
    if !is_sound(sizes, words, records, places, entries) {
        return unsound();
    }
    let done = request_read::read_sound(sizes, words, records, places, entries, task, address);
    answered(done)
}

// §6.5 to §6.12: the value that the transaction would leave at an address.
#[tactic(auto, unfolding(memory::specs::Requests::write, memory::specs::Requests::addressed, memory::specs::Numbers::asked))]
pub fn write(
    sizes: Sizes,
    words: &[u32],
    records: &[u32],
    places: &mut [PlaceRow],
    entries: &mut [EntryRow],
    task: usize,
    address: usize,
    value: u32,
) -> Answer
    ensures { replied result (memory words.now records.now places.new entries.new)
        ≡ spec.write sizes (memory words.now records.now places.old entries.old) task address value }
{
    if !is_sound(sizes, words, records, places, entries) {
        return unsound();
    }
    let done = request_write::write_sound(
        sizes, words, records, places, entries, task, address, value,
    );
    answered(done)
}

// §7: one step of a task that takes, writes, releases or sleeps.
#[tactic(auto, unfolding(memory::specs::Step::step, memory::specs::Numbers::asked))]
pub fn step(
    sizes: Sizes,
    words: &mut [u32],
    records: &mut [u32],
    places: &mut [PlaceRow],
    entries: &[EntryRow],
    task: usize,
) -> Answer
    ensures { replied result (memory words.new records.new places.new entries.now)
        ≡ step sizes (memory words.old records.old places.old entries.now) task }
{
    if !is_sound(sizes, words, records, places, entries) {
        return unsound();
    }
    step_task::step_sound(sizes, words, records, places, entries, task)
}

// §6, §7: any request of a task.
#[tactic(auto, using(memory::proofs::Cases::unsound))]
pub fn ask(
    sizes: Sizes,
    words: &mut [u32],
    records: &mut [u32],
    places: &mut [PlaceRow],
    entries: &mut [EntryRow],
    asked: Call,
) -> Answer
    ensures { replied result (memory words.new records.new places.new entries.new)
        ≡ call sizes (memory words.old records.old places.old entries.old) asked }
{
    if !is_sound(sizes, words, records, places, entries) {
        return unsound();
    }
    let done = request_any::ask_sound(sizes, words, records, places, entries, asked);
    answered(done)
}

// §5.5, §5.6: what stands at an address, for anybody.
#[tactic(auto, unfolding(memory::specs::Requests::look))]
pub fn look(
    sizes: Sizes,
    words: &[u32],
    records: &[u32],
    places: &[PlaceRow],
    entries: &[EntryRow],
    address: usize,
) -> Looked
    ensures { result ≡ spec.look sizes (memory words.now records.now places.now entries.now) address }
{
    let board = Board {
        sizes,
        words,
        records,
        places,
        entries,
    };
    match table_sound::checked(board) {
        Some(sound) => table_seen::look_sound(sound, address),
        None => Looked::from(unsound()),
    }
}
