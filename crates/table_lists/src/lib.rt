// The lists of a table (§10.13, §10.14): only sleepers have one, those on it may be there, and no way leads back to its start.

#![tactic(auto)]

ghost use Rattle.std.specs.Prelude.{◌≡◌, not, [], ◌≤◌, length, get_or};
ghost use Rattle.memory.specs.Pieces.{memory, place_of, most_tasks};
ghost use Rattle.memory.specs.Lists.{has, leads};
ghost use Rattle.memory.specs.Sound.{all_below, may_join, lists_ok};
ghost use Rattle.table_leads.specs.Contract.{joined_in};
ghost use Rattle.table_lists.specs.Contract.{Sleepers, alone, inside, set_fits};

use memory::{Goal, Phase, Place, PlaceRow, Sizes, TaskSet};

// Whether a task in this phase may be on a list.
fn may_join(phase: Phase) -> bool
    ensures { result ≡ may_join phase }
{
    matches!(
        phase,
        Phase::Taking(Goal::Sleep, _) | Phase::Asleep | Phase::Releasing(_, _)
    )
}

// Whether nobody is on a list, as on most boards. It goes to the end of the table, so that the compiler takes many rows at a time.
fn nobody_joins(places: &[PlaceRow]) -> bool
    ensures { result ≡ all_below (length places.now) (alone places.now) }
{
    places.iter().fold(true, |alone, row| alone & (row[3] == 0))
}

// The set of those who sleep.
fn sleepers(places: &[PlaceRow]) -> TaskSet
    requires { length places.now ≤ most_tasks }
    ensures { Sleepers places.now (length places.now) result }
{
    let mut set = TaskSet::none();
    for (t, row) in places.iter().enumerate() {
        if Place::from(*row).phase.is_asleep() {
            set = set.with(t);
        }
    }
    set
}

// Whether all of a set are in another.
fn is_inside(set: TaskSet, others: TaskSet) -> bool
    ensures { result ≡ inside set others }
{
    set.without(others).is_none()
}

// Whether a task may have joined those of its set: all of them sleep, and it may be on a list.
fn set_fits(row: PlaceRow, asleep: TaskSet) -> bool
    ensures { result ≡ set_fits asleep (place_of row) }
{
    let joins = TaskSet::from(row[3]);
    joins.is_none() || is_inside(joins, asleep) && may_join(Place::from(row).phase)
}

fn sets_fit(places: &[PlaceRow], asleep: TaskSet) -> bool
    ensures { result ≡ all_below (length places.now) (λ t. set_fits asleep (place_of (get_or places.now t []))) }
{
    places.iter().all(|row| set_fits(*row, asleep))
}

// Whether no way leads from a task's list back to the task.
fn no_way_back(places: &[PlaceRow]) -> bool
    requires { length places.now ≤ most_tasks }
    ensures { result ≡ all_below (length places.now) (λ t. not (leads (joined_in places.now) (length places.now) t t)) }
{
    let mut ways = [TaskSet::none(); memory::MOST_TASKS];
    table_leads::ways(places, &mut ways);
    // Stays a loop: with `all` over the numbered sets the check finds no proof by itself.
    for (t, way) in ways[..places.len()].iter().enumerate() {
        if way.has(t) {
            return false;
        }
    }
    true
}

// The lists of a table with as many places as tasks. Where nobody is on a list there is nothing more to look at.
pub fn lists_ok(sizes: Sizes, places: &[PlaceRow]) -> bool
    requires { (length places.now ≡ sizes.tasks) × (sizes.tasks ≤ most_tasks) }
    ensures { result ≡ lists_ok sizes (memory [] [] places.now []) }
{
    if nobody_joins(places) {
        return true;
    }
    if !sets_fit(places, sleepers(places)) {
        return false;
    }
    no_way_back(places)
}
