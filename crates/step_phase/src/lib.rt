// The step of a task (§7) by its phase, with the place by value: over an entry, or the step that ends a phase.

#![tactic(auto)]

ghost use Rattle.std.specs.Prelude.{◌≡◌};
ghost use Rattle.memory.specs.Pieces.{ended};
ghost use Rattle.memory.specs.Step.{end_number};
ghost use Rattle.step_phase.specs.Contract.{Ready, Stepped, Decided, plainly};

use memory::{Answer, EntryRow, Goal, Outcome, Phase, Place, PlaceRow, Refusal, Sizes};

// A task's place after a step, and what the step answers.
#[derive(Clone, Copy)]
pub struct Moved {
    pub place: Place,
    pub answer: Answer,
}

impl Moved {
    // A step that answers a number alone. What a step answers stays a number: the C interface (§9).
    fn plain(place: Place, number: u32) -> Moved
        ensures { result ≡ plainly place number }
    {
        Moved {
            place,
            answer: Answer::plain(number),
        }
    }
}

// §7.14: the number of an outcome.
fn end_number(outcome: Outcome) -> u32
    ensures { result ≡ end_number outcome }
{
    match outcome {
        Outcome::Committed => 21,
        Outcome::Failed => 22,
        Outcome::Woken => 23,
    }
}

// §7.14: the step that ends a transaction. The task has no entries then, and is off every list.
fn end(outcome: Outcome) -> Moved
    ensures { result ≡ plainly ended (end_number outcome) }
{
    Moved::plain(Place::ended(), end_number(outcome))
}

// §7.9: the deciding step.
fn decide(place: Place, goal: Goal) -> Moved
    ensures { Decided place goal result }
{
    match goal {
        Goal::Commit => Moved::plain(place.moved(Phase::Writing(0)), 0),
        Goal::Sleep => Moved::plain(place.moved(Phase::Asleep), 20),
    }
}

// The step, with the place by value.
// The tables stay apart: the functions that it calls ask for those alone that they use, and a struct would be taken apart for each.
pub fn advance(
    place: Place,
    sizes: Sizes,
    words: &mut [u32],
    records: &mut [u32],
    places: &mut [PlaceRow],
    entries: &[EntryRow],
    task: usize,
) -> Moved
    requires { Ready place sizes words.old records.old places.old entries.now task }
    ensures { Stepped place sizes words.old records.old places.old entries.now task result.place words.new records.new places.new result.answer }
{
    let count = place.count;
    match place.phase {
        Phase::Taking(goal, i) if i < count => {
            let next = step_take::take(place, goal, i, sizes, records, places, entries, task);
            Moved::plain(next, 0)
        }
        Phase::Taking(goal, _) => decide(place, goal),
        Phase::Writing(i) if i < count => {
            let next = step_entry::write(i, sizes, words, entries, task);
            Moved::plain(place.moved(next), 0)
        }
        Phase::Writing(_) => Moved::plain(place.moved(Phase::Releasing(Outcome::Committed, 0)), 0),
        Phase::Releasing(outcome, i) if i < count => {
            let next = step_entry::release(outcome, i, sizes, records, entries, task);
            Moved::plain(place.moved(next), 0)
        }
        Phase::Releasing(outcome, _) => end(outcome),
        Phase::Asleep => Moved::plain(place, 20),
        Phase::Open | Phase::Idle => Moved {
            place,
            answer: Refusal::TooEarly(place.phase).into(),
        },
    }
}
