// Who may ask: a task's place where its phase is the one that a request needs, or what refuses it.

#![tactic(auto)]

ghost use Rattle.std.specs.Prelude.{◌≡◌, true, List, ℕ, length};
ghost use Rattle.memory.specs.Pieces.{memory};
ghost use Rattle.memory.specs.Sound.{sound};
ghost use Rattle.task_permit.specs.Contract.{allowed_by, Permits};

use memory::{Phase, Place, PlaceRow, Refusal, Sizes};

// The phase that a request needs. Stays a type of two: a test in its place would be named at each of the five calls and need a clause
// on its answer, and say no more.
#[derive(Clone, Copy, PartialEq, Eq)]
pub enum Needs {
    Idle,
    Open,
}

impl Needs {
    // Whether a task in this phase may ask.
    fn allows(self, phase: Phase) -> bool
        ensures { result ≡ allowed_by self phase }
    {
        matches!(
            (self, phase),
            (Needs::Idle, Phase::Idle) | (Needs::Open, Phase::Open)
        )
    }
}

// §6.2: the place of a task that may ask, or which of 3 and 4 refuses it.
pub fn asked(sizes: Sizes, places: &[PlaceRow], task: usize, needs: Needs) -> Result<Place, Refusal>
    requires { length places.now ≡ sizes.tasks }
    ensures { (ws : List ℕ) (rs : List ℕ) (es : List (List ℕ)) → sound sizes (memory ws rs places.now es) ≡ true → Permits sizes (memory ws rs places.now es) task (allowed_by needs) result }
{
    if sizes.tasks <= task {
        return Err(Refusal::NoTask);
    }
    let place = Place::from(places[task]);
    if needs.allows(place.phase) {
        Ok(place)
    } else {
        Err(Refusal::TooEarly(place.phase))
    }
}
