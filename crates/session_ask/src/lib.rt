// What a record of a session asks of the memory: a board of its sizes, or the request of its kind.

#![tactic(auto)]

ghost use Rattle.std.specs.Prelude.{◌≡◌, ◌<◌};
ghost use Rattle.memory.specs.Pieces.{memory};
ghost use Rattle.memory.specs.Numbers.{replied};
ghost use Rattle.session_fields.specs.Fields as file;
ghost use Rattle.session_ask.specs.Asking as spec;

use memory::{Answer, Call, EntryRow, PlaceRow, Sizes};
use session_fields::{ADDRESS, FIRST, RECORDS, TASK, TASKS, VALUE, WORDS, number};
use session_marks::Kind;

// §11.2: the sizes that an opening asks.
pub fn sizes_of(body: &[u8]) -> Sizes
    ensures { (result ≡ spec.sizes_of body.now) × (result.words < 65536) }
{
    Sizes {
        words: number(body, Kind::Open, WORDS) as usize,
        records: number(body, Kind::Open, RECORDS) as usize,
        tasks: number(body, Kind::Open, TASKS) as usize,
    }
}

// §11.2: the first version that an opening asks.
pub fn first_of(body: &[u8]) -> u32
    ensures { result ≡ file.first_version body.now }
{
    number(body, Kind::Open, FIRST)
}

// §11.2: the request that a record asks, or none where it asks that a board is opened. The numbers of a request stand as in a WR.
fn asked_of(kind: Kind, body: &[u8]) -> Option<Call>
    ensures { result ≡ spec.asked_of kind body.now }
{
    let task = number(body, Kind::Write, TASK) as usize;
    let address = number(body, Kind::Write, ADDRESS) as usize;
    let value = number(body, Kind::Write, VALUE);
    match kind {
        Kind::Open => None,
        Kind::Start => Some(Call::ST(task)),
        Kind::Commit => Some(Call::CM(task)),
        Kind::Abort => Some(Call::AB(task)),
        Kind::Wait => Some(Call::WT(task)),
        Kind::Step => Some(Call::SP(task)),
        Kind::Read => Some(Call::RD(task, address)),
        Kind::Write => Some(Call::WR(task, address, value)),
    }
}

// A record is asked of the memory.
#[tactic(auto, unfolding(crate::specs::Asking::requested))]
pub fn ask(
    sizes: Sizes,
    first: u32,
    words: &mut [u32],
    records: &mut [u32],
    places: &mut [PlaceRow],
    entries: &mut [EntryRow],
    kind: Kind,
    body: &[u8],
) -> Answer
    ensures { replied result (memory words.new records.new places.new entries.new)
        ≡ spec.requested sizes first (memory words.old records.old places.old entries.old) kind body.now }
{
    match asked_of(kind, body) {
        None => calls::open_board(sizes, first, words, records, places, entries),
        Some(call) => calls::ask(sizes, words, records, places, entries, call),
    }
}
