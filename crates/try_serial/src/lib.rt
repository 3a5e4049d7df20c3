// A second machine: §5 to §7 once more, over structures of its own and with none of the memory's code.
// It keeps the serial board itself. It is asked as the memory is, by a call and by how the tables would be lent to it.

#![tactic(auto)]

pub mod asked;
pub mod board;
pub mod ledger;
pub mod limits;
mod lists;
pub mod log;
mod machine;
pub mod refusal;

use asked::{AnyCall, Lent};
use board::Board;
use ledger::Ledger;
use memory::Looked;
use refusal::Refusal;

// A number alone.
fn plain(number: u32) -> Looked {
    Looked {
        number,
        value: 0,
        version: 0,
    }
}

impl Ledger {
    pub fn ask(&mut self, call: AnyCall, lent: Lent) -> Looked {
        self.answer(call, lent)
            .unwrap_or_else(|refusal| plain(refusal as u32))
    }

    // What a call answers, if nothing refuses it. The board is the one that is lent.
    fn answer(&mut self, call: AnyCall, lent: Lent) -> Result<Looked, Refusal> {
        if let AnyCall::Open(first) = call
            && !board::opens(first, lent.sizes)
        {
            return Err(Refusal::OutOfRange);
        }
        self.board = Board::lent(lent)?;
        match call {
            AnyCall::Open(first) => {
                self.clear(first);
                Ok(plain(0))
            }
            AnyCall::Look(address) => self.look(address),
            AnyCall::Ask(request) => self.request(request),
        }
    }
}
