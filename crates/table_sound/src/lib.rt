// The check that a table is sound, which every request makes first: the sizes and the lengths, and the walk over the tables in room of its own.

#![tactic(auto)]

ghost use Rattle.std.specs.Prelude.{◌≡◌, ◌≤◌};
ghost use Rattle.std.specs.Option.{is_some, IfSome};
ghost use Rattle.memory.specs.Lent.{lent};
ghost use Rattle.memory.specs.Pieces.{most_records};
ghost use Rattle.memory.specs.Sound.{sound};
ghost use Rattle.table_sound.specs.Contract.{but_words};
ghost use Rattle.table_walk.specs.Walk.{Fit, tables_ok};

use memory::{Board, SoundBoard};

// How many records a small and a middling board have at most, for the room that the walk takes.
const FEW_RECORDS: usize = 64;

const SOME_RECORDS: usize = 256;

// The walk with room for N records: `met`, and then `owned`. It reads all but the words.
fn walk_in<const N: usize>(board: Board) -> bool
    requires { Fit board.sizes (but_words board) × (board.sizes.records ≤ N) × (N ≤ most_records) }
    ensures { result ≡ tables_ok board.entry.sizes (but_words board.entry) }
{
    let Board {
        sizes,
        records,
        places,
        entries,
        ..
    } = board;
    let mut met = [0u16; N];
    let mut owned = [false; N];
    table_walk::tables_ok(sizes, records, places, entries, &mut met, &mut owned)
}

// The walk in room for as few records as there are on a small, a middling or a large board: the fewer, the less there is to clear.
fn room_ok(board: Board) -> bool
    requires { Fit board.sizes (but_words board) }
    ensures { result ≡ tables_ok board.entry.sizes (but_words board.entry) }
{
    let records = board.sizes.records;
    if records <= FEW_RECORDS {
        walk_in::<FEW_RECORDS>(board)
    } else if records <= SOME_RECORDS {
        walk_in::<SOME_RECORDS>(board)
    } else {
        walk_in::<{ memory::MOST_RECORDS }>(board)
    }
}

// Whether the tables of a board are sound: the answer is the definition's, for any sizes and any four slices.
pub fn is_sound(board: Board) -> bool
    ensures { result ≡ sound board.entry.sizes (lent board.entry) }
{
    table_parts::sizes_ok(board.sizes)
        && table_parts::lengths_ok(board)
        && room_ok(board)
        && table_lists::lists_ok(board.sizes, board.places)
}

// The board as one whose tables are sound, if they are.
pub fn checked(board: Board) -> Option<SoundBoard>
    ensures sound { is_some result ≡ sound board.entry.sizes (lent board.entry) }
    ensures same { IfSome result (λ checked. checked.board ≡ board.entry) }
{
    if is_sound(board) {
        Some(SoundBoard { board })
    } else {
        None
    }
}
