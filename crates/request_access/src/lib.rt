// How a Read or a Write of an address goes on, on a board known to be sound: its entry found or made, or what refuses it.

#![tactic(auto)]

ghost use Rattle.std.specs.Prelude.{◌≡◌, true};
ghost use Rattle.memory.specs.Lent.{lent};
ghost use Rattle.memory.specs.Pieces.{memory};
ghost use Rattle.memory.specs.Sound.{sound};
ghost use Rattle.request_access.specs.Contract.{Accesses, left};

use memory::{Board, Entry, EntryRow, Place, PlaceRow, Refusal, Sizes, SoundBoard};
use task_permit::Needs;

// An address that a task may use: the task's place, and its entry for the address, which it has or which is to be added.
#[derive(Clone, Copy)]
pub enum Access {
    Known(Place, Entry),
    New(Place, Entry),
}

// §6.2 to §6.8: 3, 4, 5, then a known address, and for a new one 6, then 9.
#[tactic(auto, using(memory::proofs::Facts::places_length, memory::proofs::Facts::words_most))]
pub fn addressed(sound: SoundBoard, task: usize, address: usize) -> Result<Access, Refusal>
    ensures { Accesses sound.entry.board.sizes (lent sound.entry.board) task address result }
{
    let Board {
        sizes,
        places,
        entries,
        ..
    } = sound.board;
    let place = task_permit::asked(sizes, places, task, Needs::Open)?;
    if sizes.words <= address {
        return Err(Refusal::NoAddress);
    }
    let run = table_search::run_of(sizes, entries, task, place.count);
    match table_search::find_address(run, address as u32) {
        Some(entry) => Ok(Access::Known(place, entry)),
        None => {
            let entry = request_fresh::new_address(sound, task, place.count, address)?;
            Ok(Access::New(place, entry))
        }
    }
}

// The same in the four tables. Where the task was overtaken its transaction ends (§6.7), and its entries are dropped (§3.8).
pub fn reached(
    sizes: Sizes,
    words: &[u32],
    records: &[u32],
    places: &mut [PlaceRow],
    entries: &[EntryRow],
    task: usize,
    address: usize,
) -> Result<Access, Refusal>
    requires { sound sizes (memory words.now records.now places.old entries.now) ≡ true }
    ensures goes { Accesses sizes (memory words.now records.now places.old entries.now) task address result }
    ensures leaves { memory words.now records.now places.new entries.now ≡ left (memory words.now records.now places.old entries.now) task result }
{
    let board = Board {
        sizes,
        words,
        records,
        places,
        entries,
    };
    let access = addressed(SoundBoard { board }, task, address);
    if let Err(Refusal::Overtaken) = access {
        task_descriptor::put_place(places, task, Place::ended());
    }
    access
}
