// The step of a task (§7), on a table known to be sound.

#![tactic(auto)]

ghost use Rattle.std.specs.Prelude.{◌≡◌, true};
ghost use Rattle.memory.specs.Pieces.{memory};
ghost use Rattle.memory.specs.Sound.{sound};
ghost use Rattle.memory.specs.Numbers.{replied};
ghost use Rattle.memory.specs.Step.{step};
ghost use Rattle.step_phase.specs.Contract.{Ready, Stepped};

use memory::{Answer, EntryRow, Place, PlaceRow, Refusal, Sizes};
use step_phase::Moved;

// The step, with the place lent. What is handed back is the answer.
fn step_place(
    place: &mut Place,
    sizes: Sizes,
    words: &mut [u32],
    records: &mut [u32],
    places: &mut [PlaceRow],
    entries: &[EntryRow],
    task: usize,
) -> Answer
    requires { Ready place.old sizes words.old records.old places.old entries.now task }
    ensures { Stepped place.old sizes words.old records.old places.old entries.now task place.new words.new records.new places.new result }
{
    let moved = step_phase::advance(*place, sizes, words, records, places, entries, task);
    *place = moved.place;
    moved.answer
}

// Lends the place. Nothing else makes a reference to one, so that whoever calls this is covered by the borrow checker.
fn step_value(
    mut place: Place,
    sizes: Sizes,
    words: &mut [u32],
    records: &mut [u32],
    places: &mut [PlaceRow],
    entries: &[EntryRow],
    task: usize,
) -> Moved
    requires { Ready place sizes words.old records.old places.old entries.now task }
    ensures { Stepped place sizes words.old records.old places.old entries.now task result.place words.new records.new places.new result.answer }
{
    let answer = step_place(&mut place, sizes, words, records, places, entries, task);
    Moved { place, answer }
}

// Answers no Result, since 20 to 23 are no refusals, and one more is no plainer.
// The step of a task, with the tables alone: its row is made a place, the place is stepped and stored back.
pub fn step_sound(
    sizes: Sizes,
    words: &mut [u32],
    records: &mut [u32],
    places: &mut [PlaceRow],
    entries: &[EntryRow],
    task: usize,
) -> Answer
    requires { sound sizes (memory words.old records.old places.old entries.now) ≡ true }
    ensures { replied result (memory words.new records.new places.new entries.now) ≡ step sizes (memory words.old records.old places.old entries.now) task }
{
    if task >= sizes.tasks {
        return Refusal::NoTask.into();
    }
    let place = Place::from(places[task]);
    let stepped = step_value(place, sizes, words, records, places, entries, task);
    places[task] = stepped.place.row();
    stepped.answer
}
