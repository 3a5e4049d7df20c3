// An independent second machine beside the memory, on random schedules. After every call the number and the values that both answered
// are compared, and then the logical value and version of every address of the board.

#![tactic(auto)]

mod boards;
mod both;
mod dice;
mod drawn;
mod report;
mod tally;

use drawn::{Drawn, Turn};
use std::io;
use tally::Tally;
use try_calls::Tables;
use try_calls::same::same_answer;
use try_serial::ledger::Ledger;

// The calls of 640 schedules.
const CALLS: usize = 168800;

// The call of a turn of both, compared, and then every address.
fn play(turn: Turn, tally: &mut Tally, tables: &mut Tables, ledger: &mut Ledger) {
    let Drawn { call, lent, own } = turn.call(ledger);
    let got = tables.ask(call, lent);
    let wanted = ledger.ask(call, lent);
    let agreed = both::agreeing(own, tables, ledger).unwrap_or(0);
    let same = got.is_some_and(|got| same_answer(got, wanted)) && agreed == own.words;
    tally.count(turn, got.map(|got| got.number), agreed, same);
}

fn main(rt: HostRuntime) -> io::Result<()> {
    let mut tables = Tables::new();
    let mut ledger = Ledger::new();
    let mut tally = Tally::default();
    let mut turn = Turn::first();
    for _ in 0..CALLS {
        play(turn, &mut tally, &mut tables, &mut ledger);
        turn = turn.next();
    }
    report::print(&rt, &tally, ledger.counts)
}
