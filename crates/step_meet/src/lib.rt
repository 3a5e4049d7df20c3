// A task comes to a record that another task owns (§7.7, §7.8): it joins a sleeper, or fails, and the owner may end.

#![tactic(auto)]

ghost use Rattle.std.specs.Prelude.{◌≡◌};
ghost use Rattle.memory.specs.Step as spec;
ghost use Rattle.step_wake.specs.Contract.{MayWake};
ghost use Rattle.step_meet.specs.Contract.{Clashed, MayLook, Seen, MayCome, Came};

use memory::{Entry, EntryRow, Goal, Outcome, Phase, Place, PlaceRow, Sizes};

// A task that comes to another's record: its place, what it takes for, and with which of its entries it comes.
#[derive(Clone, Copy)]
pub struct Coming {
    pub place: Place,
    pub goal: Goal,
    pub i: usize,
    pub entry: Entry,
}

// §7.7, §7.17: the owner's place is moved on by a clash; with a sleeper all end who are to.
fn clash(owner: usize, places: &mut [PlaceRow])
    requires { MayWake places.old owner }
    ensures { Clashed owner places.old places.new }
{
    let place = Place::from(places[owner]);
    match place.phase {
        Phase::Taking(_, _) => {
            places[owner] = place.moved(Phase::Releasing(Outcome::Failed, 0)).row();
        }
        Phase::Asleep => step_wake::wake(owner, places),
        _ => {}
    }
}

// §7.8: whether one that takes for this goal may join an owner in this phase.
fn joining(goal: Goal, phase: Phase) -> bool
    ensures { result ≡ spec.joining goal phase }
{
    goal == Goal::Sleep && phase.is_asleep()
}

// The old version of an owner's entries on a record. There is one, since the record is the owner's.
fn version_on(sizes: Sizes, count: usize, entries: &[EntryRow], owner: usize, record: usize) -> u32
    requires { MayLook sizes count entries.now owner «record» }
    ensures { Seen sizes count entries.now owner «record» result }
{
    let run = table_search::run_of(sizes, entries, owner, count);
    let entry = table_search::find_record(run, sizes.records as u32, record as u32).unwrap();
    entry.old.version
}

// The place of a task that has come to a record of another's. It joins a sleeper that has seen the same version.
pub fn meet(
    coming: Coming,
    sizes: Sizes,
    places: &mut [PlaceRow],
    entries: &[EntryRow],
    owner: usize,
) -> Place
    requires { MayCome coming sizes places.old entries.now owner }
    ensures { Came coming sizes places.old entries.now owner result places.new }
{
    let Coming {
        place,
        goal,
        i,
        entry,
    } = coming;
    let met = Place::from(places[owner]);
    let fails = Phase::Releasing(Outcome::Failed, 0);
    if !joining(goal, met.phase) {
        clash(owner, places);
        return place.moved(fails);
    }
    let record = sizes.record_of(entry.address);
    let seen = version_on(sizes, met.count, entries, owner, record);
    if seen != entry.old.version {
        return place.moved(fails);
    }
    let joins = place.joins.with(owner);
    place.placed(Phase::Taking(goal, i + 1), joins)
}
