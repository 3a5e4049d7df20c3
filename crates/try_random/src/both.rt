// The two boards compared, address by address.
use memory::{Board, Looked, Seen};
use try_calls::Tables;
use try_calls::same::same_answer;
use try_serial::asked::Lent;
use try_serial::ledger::Ledger;

// Is what an address has what the second machine's board has there?
fn same_at(seen: Seen, ledger: &Ledger, address: usize) -> bool {
    same_answer(Looked::from(seen), ledger.at(address))
}

// How many addresses are the same on both: every one is looked up, in one pass over a table that is checked once. None where a part
// that is lent is not there, or where the table is unsound.
pub fn agreeing(own: Lent, tables: &Tables, ledger: &Ledger) -> Option<usize> {
    let board = Board {
        sizes: own.sizes,
        words: tables.words.get(..own.words)?,
        records: tables.records.get(..own.records)?,
        places: tables.places.get(..own.places)?,
        entries: tables.entries.get(..own.entries)?,
    };
    let sound = table_sound::checked(board)?;
    let same = (0..sound.board.sizes.words).filter(|a| same_at(
        table_look::logical(sound, *a),
        ledger,
        *a,
    ));
    Some(same.count())
}
