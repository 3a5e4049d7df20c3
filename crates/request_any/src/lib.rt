// Any request of a task as one value, on a table known to be sound: each goes to the function of its name.

#![tactic(auto)]

ghost use Rattle.std.specs.Prelude.{◌≡◌, true};
ghost use Rattle.memory.specs.Pieces.{memory};
ghost use Rattle.memory.specs.Sound.{sound};
ghost use Rattle.memory.specs.Numbers.{replied};
ghost use Rattle.memory.specs.Calls.{call};
ghost use Rattle.task_permit.specs.Contract.{answered};

use memory::{Answer, Call, EntryRow, PlaceRow, Refusal, Sizes};

// §6, §7: the request that is asked.
#[tactic(auto, unfolding(memory::specs::Calls::call))]
pub fn ask_sound(
    sizes: Sizes,
    words: &mut [u32],
    records: &mut [u32],
    places: &mut [PlaceRow],
    entries: &mut [EntryRow],
    asked: Call,
) -> Result<Answer, Refusal>
    requires { sound sizes (memory words.old records.old places.old entries.old) ≡ true }
    ensures { replied (answered result) (memory words.new records.new places.new entries.new)
        ≡ call sizes (memory words.old records.old places.old entries.old) asked }
{
    match asked {
        Call::ST(task) => request_phase::start_sound(sizes, words, records, places, entries, task),
        Call::RD(task, address) => request_read::read_sound(
            sizes, words, records, places, entries, task, address,
        ),
        Call::WR(task, address, value) => request_write::write_sound(
            sizes, words, records, places, entries, task, address, value,
        ),
        Call::AB(task) => request_phase::abort_sound(sizes, words, records, places, entries, task),
        Call::CM(task) => request_commit::commit_sound(
            sizes, words, records, places, entries, task,
        ),
        Call::WT(task) => request_commit::wait_sound(sizes, words, records, places, entries, task),
        Call::SP(task) => {
            let stepped = step_task::step_sound(sizes, words, records, places, entries, task);
            Ok(stepped)
        }
    }
}
