// Where lists lead (§2.15): for each task, the set of those from whose lists a way leads to it.

#![tactic(auto)]

ghost use Rattle.std.specs.Prelude.{◌≡◌, ℕ, ◌<◌, ◌≤◌, length, get_or};
ghost use Rattle.memory.specs.Pieces.{most_tasks, no_tasks};
ghost use Rattle.memory.specs.Lists.{has, leads};
ghost use Rattle.table_leads.specs.Contract.{through, Through, Filled, Ways};

use memory::{PlaceRow, TaskSet};

// A set of those that lead to a task, where a way through task k may be gone, to which those of `leading` lead.
fn passed(set: TaskSet, leading: TaskSet, k: usize) -> TaskSet
    requires { k < most_tasks }
    ensures { result ≡ through leading k set }
{
    if set.has(k) {
        set.with_all(leading)
    } else {
        set
    }
}

// One task more to go through.
fn pass_all(ways: &mut [TaskSet], k: usize)
    requires { (k < length ways.old) × (length ways.old ≤ most_tasks) }
    ensures { Through (length ways.old) k ways.old ways.new }
{
    let leading = ways[k];
    for set in ways.iter_mut() {
        *set = passed(*set, leading, k);
    }
}

// Each task's own set: those on whose lists it is.
fn fill(places: &[PlaceRow], ways: &mut [TaskSet])
    requires { length places.now ≤ length ways.old }
    ensures { Filled places.now ways.old ways.new }
{
    // Stores by index: of two iterators side by side, one to write, the library tells nothing of what was written.
    for (t, place) in places.iter().enumerate() {
        ways[t] = TaskSet::from(place[3]);
    }
}

// One of the tasks after the other may be gone through.
fn close(ways: &mut [TaskSet])
    requires { length ways.old ≤ most_tasks }
    ensures { (length ways.new ≡ length ways.old) × ((a b : ℕ) → b < length ways.old → has (get_or ways.new b no_tasks).bits a ≡ leads (λ x y. has (get_or ways.old y no_tasks).bits x) (length ways.old) a b) }
{
    for k in 0..ways.len() {
        pass_all(ways, k);
    }
}

// The ways between all tasks: in the set of task b is each a from whose list a way leads to b.
pub fn ways(places: &[PlaceRow], sets: &mut [TaskSet])
    requires { (length places.now ≤ length sets.old) × (length sets.old ≤ most_tasks) }
    ensures { Ways places.now sets.old sets.new }
{
    let tasks = &mut sets[..places.len()];
    fill(places, tasks);
    close(tasks);
}
