// The lines of a board (§12.6), into a lent buffer.

#![tactic(auto)]

ghost use Rattle.std.specs.Prelude.{◌≡◌, ◌*◌, ◌<◌};
ghost use Rattle.memory.specs.Lent.{lent};
ghost use Rattle.memory.specs.Sound.{sound};
ghost use Rattle.memory.specs.Requests.{look};
ghost use Rattle.session_text.specs.Out.{Puts};
ghost use Rattle.session_show.specs.Showing as spec;
ghost use Rattle.session_show.specs.Showing.{word_line_room};

use memory::{Board, Seen, SoundBoard};
use session_text::Out;

// §5.5, §5.6: value and version of the look-up at an address, of a board that was checked.
// Stays a flag: an Option of a sound board would need two clauses, that it is there just if the board is sound and that it is that
// board, where the flag needs one.
#[tactic(auto, unfolding(memory::specs::Requests::look))]
fn seen_at(board: Board, checked: bool, address: usize) -> Seen
    requires { (checked ≡ sound board.sizes (lent board)) × (address < board.sizes.words) }
    ensures { let l = look board.entry.sizes (lent board.entry) address in
        (result.value ≡ l.value) × (result.version ≡ l.version) }
{
    if checked {
        table_look::logical(SoundBoard { board }, address)
    } else {
        Seen {
            value: 0,
            version: 0,
        }
    }
}

// Puts the line of an address, if it has one.
#[tactic(auto, using(session_text::proofs::Laws::put_none), unfolding(crate::specs::Showing::shown))]
fn put_word(board: Board, first: u32, checked: bool, address: usize, out: &mut Out<'_>)
    requires { (checked ≡ sound board.sizes (lent board))
        × (address < board.sizes.words) × (address < 65536) × (out.old.at < 1000000000) }
    ensures { Puts word_line_room out.old out.new (spec.shown board.entry.sizes first (lent board.entry) address) }
{
    let seen = seen_at(board, checked, address);
    // Nothing was written to the address since the opening.
    if seen.value == 0 && seen.version == first {
        return;
    }
    out.put_word_line(address as u32, seen.value, seen.version);
}

// Puts the lines of the board, lowest address first. The board is checked once, and not at each address.
pub fn put_board(board: Board, first: u32, out: &mut Out<'_>)
    requires { (board.sizes.words < 65536) × (out.old.at < 2000000) }
    ensures { Puts (word_line_room * board.entry.sizes.words) out.old out.new
        (spec.word_lines board.entry.sizes first (lent board.entry) board.entry.sizes.words) }
{
    let checked = table_sound::is_sound(board);
    for address in 0..board.sizes.words {
        put_word(board, first, checked, address, out);
    }
}
