// A sleeper is woken, with all who end with it (§7.17).

#![tactic(auto)]

ghost use Rattle.std.specs.Prelude.{◌≡◌, ◌<◌, ◌≤◌, length};
ghost use Rattle.memory.specs.Pieces.{most_tasks};
ghost use Rattle.memory.specs.Step as spec;
ghost use Rattle.step_wake.specs.Contract.{RowFits, Ended, MayEnd, LedBy, EndWith, AllEnd, MayWake, Woke};

use memory::{Outcome, Phase, Place, PlaceRow, TaskSet};

// §7.7: the phase of one that is met, or that ends with a sleeper.
fn ending(phase: Phase) -> Phase
    ensures { result ≡ spec.ending phase }
{
    match phase {
        Phase::Taking(_, _) => Phase::Releasing(Outcome::Failed, 0),
        Phase::Asleep => Phase::Releasing(Outcome::Woken, 0),
        other => other,
    }
}

// The row of one that ends with those of a set, and so leaves their lists.
fn ended_row(row: PlaceRow, ends: TaskSet) -> PlaceRow
    requires { RowFits row }
    ensures { Ended row ends result }
{
    let place = Place::from(row);
    let joins = place.joins.without(ends);
    place.placed(ending(place.phase), joins).row()
}

// All of a set end.
fn end_all(places: &mut [PlaceRow], ends: TaskSet)
    requires { MayEnd places.old }
    ensures { AllEnd ends places.old places.new }
{
    for (t, row) in places.iter_mut().enumerate() {
        if ends.has(t) {
            *row = ended_row(*row, ends);
        }
    }
}

// A task, and those to whom a way leads from it.
#[tactic(auto, using(memory::proofs::Sets::has_none))]
fn led_by(ways: &[TaskSet], task: usize) -> TaskSet
    requires { (task < most_tasks) × (length ways.now ≤ most_tasks) }
    ensures { LedBy ways.now (length ways.now) task result }
{
    let mut set = TaskSet::none().with(task);
    for (t, way) in ways.iter().enumerate() {
        if way.has(task) {
            set = set.with(t);
        }
    }
    set
}

// Those who end with a task.
fn ends_with(places: &[PlaceRow], task: usize) -> TaskSet
    requires { (task < most_tasks) × (length places.now ≤ most_tasks) }
    ensures { EndWith places.now task result }
{
    let mut ways = [TaskSet::none(); memory::MOST_TASKS];
    table_leads::ways(places, &mut ways);
    led_by(&ways[..places.len()], task)
}

// A sleeper wakes, and all to whom its list leads end with it.
pub fn wake(sleeper: usize, places: &mut [PlaceRow])
    requires { MayWake places.old sleeper }
    ensures { Woke sleeper places.old places.new }
{
    let ends = ends_with(places, sleeper);
    end_all(places, ends);
}
