// The request Read, on a table known to be sound.

#![tactic(auto)]

ghost use Rattle.std.specs.Prelude.{◌≡◌, true};
ghost use Rattle.memory.specs.Pieces.{memory};
ghost use Rattle.memory.specs.Sound.{sound};
ghost use Rattle.memory.specs.Numbers.{replied};
ghost use Rattle.memory.specs.Requests as spec;
ghost use Rattle.task_permit.specs.Contract.{answered};

use memory::{Answer, EntryRow, PlaceRow, Refusal, Sizes};
use request_access::Access;

// §6.9: Read answers the new value of the entry.
pub fn read_sound(
    sizes: Sizes,
    words: &[u32],
    records: &[u32],
    places: &mut [PlaceRow],
    entries: &mut [EntryRow],
    task: usize,
    address: usize,
) -> Result<Answer, Refusal>
    requires { sound sizes (memory words.now records.now places.old entries.old) ≡ true }
    ensures { replied (answered result) (memory words.now records.now places.new entries.new) ≡ spec.read sizes (memory words.now records.now places.old entries.old) task address }
{
    let access = request_access::reached(sizes, words, records, places, entries, task, address)?;
    let entry = match access {
        Access::Known(_, entry) => entry,
        Access::New(place, entry) => {
            task_descriptor::add_entry(sizes, places, entries, task, place, entry);
            entry
        }
    };
    Ok(Answer {
        number: 0,
        value: entry.new.value,
    })
}
