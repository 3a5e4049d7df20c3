// A step over one entry whose record is to be taken: it is taken, or it is another's. It says the task's place afterwards.

#![tactic(auto)]

ghost use Rattle.step_take.specs.Contract.{MayTake, Took};

use memory::{EntryRow, Goal, Held, Outcome, Phase, Place, PlaceRow, Sizes};
use step_meet::Coming;

// §7.4 to §7.8: a step in Taking, on entry i. What is answered is the task's place afterwards.
pub fn take(
    place: Place,
    goal: Goal,
    i: usize,
    sizes: Sizes,
    records: &mut [u32],
    places: &mut [PlaceRow],
    entries: &[EntryRow],
    task: usize,
) -> Place
    requires { MayTake place goal sizes records.old places.old entries.now task i }
    ensures { Took goal i sizes records.old places.old entries.now task result records.new places.new }
{
    let entry = step_entry::entry_at(i, sizes, entries, task);
    let at = sizes.record_of(entry.address);
    let goes_on = Phase::Taking(goal, i + 1);
    match Held::from(records[at]) {
        Held::Version(version) if version == entry.old.version => {
            records[at] = Held::Owner(task).number();
            place.moved(goes_on)
        }
        Held::Version(_) => place.moved(Phase::Releasing(Outcome::Failed, 0)),
        Held::Owner(owner) if owner == task => place.moved(goes_on),
        Held::Owner(owner) => {
            let coming = Coming {
                place,
                goal,
                i,
                entry,
            };
            step_meet::meet(coming, sizes, places, entries, owner)
        }
    }
}
