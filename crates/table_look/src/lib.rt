// The look-up of an address, on a board whose tables are known to be sound.

#![tactic(auto)]

ghost use Rattle.std.specs.Prelude.{◌≡◌, map, ◌<◌, ◌%◌, length};
ghost use Rattle.memory.specs.Lent.{lent};
ghost use Rattle.memory.specs.Logical.{index_on, shows, owned_at, logical};
ghost use Rattle.memory.specs.Pieces.{entry_of, committed};

use memory::{Board, Entry, EntryRow, Held, Outcome, Phase, Place, Seen, SoundBoard};

// §2.12: whether a transaction in this phase counts as committed.
pub fn is_committed(phase: Phase) -> bool
    ensures { result ≡ committed phase }
{
    matches!(
        phase,
        Phase::Writing(_) | Phase::Releasing(Outcome::Committed, _)
    )
}

// §4.3: what an entry shows, by whether its task counts as committed.
fn shown(entry: Entry, done: bool) -> Seen
    ensures { result ≡ shows done entry }
{
    if done { entry.new } else { entry.old }
}

// §4.3, §4.4: what an owner with these entries shows at an address on a record that it owns, and so has an entry on.
fn owned_at(records: u32, done: bool, run: &[EntryRow], address: u32, word: u32) -> Seen
    requires { (0 < records) × (index_on records (address % records) (map entry_of run.now) < length run.now) }
    ensures { result ≡ owned_at records done (map entry_of run.now) address word }
{
    if let Some(entry) = table_search::find_address(run, address) {
        return shown(entry, done);
    }
    let beside = table_search::find_record(run, records, address % records).unwrap();
    Seen {
        value: word,
        ..shown(beside, done)
    }
}

// §4: the logical value and version of an address.
pub fn logical(sound: SoundBoard, address: usize) -> Seen
    requires { address < sound.board.sizes.words }
    ensures { result ≡ logical sound.entry.board.sizes (lent sound.entry.board) address }
{
    let Board {
        sizes,
        words,
        records,
        places,
        entries,
    } = sound.board;
    let word = words[address];
    let record = sizes.record_of(address as u32);
    match Held::from(records[record]) {
        Held::Version(version) => Seen {
            value: word,
            version,
        },
        Held::Owner(task) => {
            let place = Place::from(places[task]);
            let run = table_search::run_of(sizes, entries, task, place.count);
            let done = is_committed(place.phase);
            owned_at(sizes.records as u32, done, run, address as u32, word)
        }
    }
}
