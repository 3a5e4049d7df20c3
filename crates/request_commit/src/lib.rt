// The requests from which on steps take a task's entries, Commit and Wait, on a table known to be sound.

#![tactic(auto)]

ghost use Rattle.std.specs.Prelude.{◌≡◌, true};
ghost use Rattle.memory.specs.Pieces.{memory};
ghost use Rattle.memory.specs.Sound.{sound};
ghost use Rattle.memory.specs.Numbers.{replied};
ghost use Rattle.memory.specs.Requests as spec;
ghost use Rattle.task_permit.specs.Contract.{answered};

use memory::{Answer, EntryRow, Goal, Phase, PlaceRow, Refusal, Sizes};
use task_permit::Needs;

// §6.14: Commit.
#[tactic(auto, using(memory::proofs::Facts::places_length))]
pub fn commit_sound(
    sizes: Sizes,
    words: &[u32],
    records: &[u32],
    places: &mut [PlaceRow],
    entries: &[EntryRow],
    task: usize,
) -> Result<Answer, Refusal>
    requires { sound sizes (memory words.now records.now places.old entries.now) ≡ true }
    ensures { replied (answered result) (memory words.now records.now places.new entries.now) ≡ spec.commit sizes (memory words.now records.now places.old entries.now) task }
{
    let place = task_permit::asked(sizes, places, task, Needs::Open)?;
    let taking = place.moved(Phase::Taking(Goal::Commit, 0));
    Ok(request_phase::placed(places, task, taking))
}

// §6.15: Wait, which 7 refuses where there is nothing to sleep on.
#[tactic(auto, using(memory::proofs::Facts::places_length))]
pub fn wait_sound(
    sizes: Sizes,
    words: &[u32],
    records: &[u32],
    places: &mut [PlaceRow],
    entries: &[EntryRow],
    task: usize,
) -> Result<Answer, Refusal>
    requires { sound sizes (memory words.now records.now places.old entries.now) ≡ true }
    ensures { replied (answered result) (memory words.now records.now places.new entries.now) ≡ spec.wait sizes (memory words.now records.now places.old entries.now) task }
{
    let place = task_permit::asked(sizes, places, task, Needs::Open)?;
    if place.count == 0 {
        return Err(Refusal::NothingRead);
    }
    let taking = place.moved(Phase::Taking(Goal::Sleep, 0));
    Ok(request_phase::placed(places, task, taking))
}
