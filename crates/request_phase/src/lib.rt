// How a task is moved to another phase, and the requests Start and Abort, on a table known to be sound.

#![tactic(auto)]

ghost use Rattle.std.specs.Prelude.{◌≡◌, true, List, ℕ, ◌<◌, length};
ghost use Rattle.memory.specs.Pieces.{memory, position_of, set_place};
ghost use Rattle.memory.specs.Sound.{sound};
ghost use Rattle.memory.specs.Numbers.{reply, replied};
ghost use Rattle.memory.specs.Requests as spec;
ghost use Rattle.task_permit.specs.Contract.{answered};

use memory::{Answer, EntryRow, Phase, Place, PlaceRow, Refusal, Sizes};
use task_permit::Needs;

// The task's place is stored anew, and that is all that is done.
#[tactic(auto, unfolding(memory::specs::Pieces::set_place))]
pub fn placed(places: &mut [PlaceRow], task: usize, place: Place) -> Answer
    requires { (task < length places.old) × (place.count < 4294967296) × (position_of place.phase < 4294967296) }
    ensures { (ws : List ℕ) (rs : List ℕ) (es : List (List ℕ)) → replied result (memory ws rs places.new es) ≡ reply 0 0 (set_place (memory ws rs places.old es) task place) }
{
    task_descriptor::put_place(places, task, place);
    Answer::plain(0)
}

// §6.4: Start.
#[tactic(auto, using(memory::proofs::Facts::places_length))]
pub fn start_sound(
    sizes: Sizes,
    words: &[u32],
    records: &[u32],
    places: &mut [PlaceRow],
    entries: &[EntryRow],
    task: usize,
) -> Result<Answer, Refusal>
    requires { sound sizes (memory words.now records.now places.old entries.now) ≡ true }
    ensures { replied (answered result) (memory words.now records.now places.new entries.now) ≡ spec.start sizes (memory words.now records.now places.old entries.now) task }
{
    task_permit::asked(sizes, places, task, Needs::Idle)?;
    Ok(placed(places, task, Place::bare(0, Phase::Open)))
}

// §6.13: Abort. The entries are dropped by their number alone (§3.8).
#[tactic(auto, using(memory::proofs::Facts::places_length))]
pub fn abort_sound(
    sizes: Sizes,
    words: &[u32],
    records: &[u32],
    places: &mut [PlaceRow],
    entries: &[EntryRow],
    task: usize,
) -> Result<Answer, Refusal>
    requires { sound sizes (memory words.now records.now places.old entries.now) ≡ true }
    ensures { replied (answered result) (memory words.now records.now places.new entries.now) ≡ spec.abort sizes (memory words.now records.now places.old entries.now) task }
{
    task_permit::asked(sizes, places, task, Needs::Open)?;
    Ok(placed(places, task, Place::ended()))
}
