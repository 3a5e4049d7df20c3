// The calls of a schedule: its opening, and then calls drawn at random, mostly such as the phase of their task allows.
use crate::boards::Board;
use crate::dice::{Moment, What};
use memory::{Call, Sizes};
use try_serial::asked::{AnyCall, Lent};
use try_serial::ledger::Ledger;
use try_serial::log::Stage;

// A turn: a call's index in a schedule, and the schedule's board.
#[derive(Clone, Copy)]
pub struct Turn {
    pub schedule: u32,
    pub index: u32,
    board: Board,
}

// A call, how the tables are lent to it, and how the board's own are.
#[derive(Clone, Copy)]
pub struct Drawn {
    pub call: AnyCall,
    pub lent: Lent,
    pub own: Lent,
}

impl Turn {
    fn opening(schedule: u32) -> Turn {
        Turn {
            schedule,
            index: 0,
            board: Board::of(schedule),
        }
    }

    pub fn first() -> Turn {
        Turn::opening(0)
    }

    // The schedule's next turn, or the first of the next schedule.
    pub fn next(self) -> Turn {
        let index = self.index.saturating_add(1);
        if index < self.board.calls {
            Turn { index, ..self }
        } else {
            Turn::opening(self.schedule.saturating_add(1))
        }
    }

    // The call of a turn: a schedule's first opens its board. The second machine knows the phases.
    pub fn call(self, ledger: &Ledger) -> Drawn {
        let board = self.board;
        let own = board.lent;
        if self.index == 0 {
            let call = AnyCall::Open(board.first);
            return Drawn {
                call,
                lent: own,
                own,
            };
        }
        let now = Moment::of(self.schedule, self.index);
        let task = task_of(own.sizes, now);
        let call = call_for(ledger.stage(task), board, Named::by(task, board, now), now);
        let sizes = sizes_for(own.sizes, call, now);
        Drawn {
            call,
            lent: Lent { sizes, ..own },
            own,
        }
    }
}

// What a call may name.
#[derive(Clone, Copy)]
struct Named {
    task: usize,
    address: usize,
    value: u32,
}

impl Named {
    fn by(task: usize, board: Board, now: Moment) -> Named {
        Named {
            task,
            address: address_of(board, now),
            value: now.draw(What::Value, 1000) as u32,
        }
    }
}

// Any call at all, by a number, since that is what is drawn. The value is an opening's first version.
fn any_of(n: usize, named: Named) -> AnyCall {
    let Named {
        task: t,
        address: a,
        value: v,
    } = named;
    match n {
        0 => AnyCall::Ask(Call::ST(t)),
        1 => AnyCall::Ask(Call::RD(t, a)),
        2 => AnyCall::Ask(Call::WR(t, a, v)),
        3 => AnyCall::Ask(Call::AB(t)),
        4 => AnyCall::Ask(Call::CM(t)),
        5 => AnyCall::Ask(Call::WT(t)),
        6 => AnyCall::Ask(Call::SP(t)),
        7 => AnyCall::Look(a),
        _ => AnyCall::Open(v),
    }
}

// The use of an address.
fn used(writes: usize, named: Named, now: Moment) -> Call {
    if now.draw(What::Use, writes) == 0 {
        Call::WR(named.task, named.address, named.value)
    } else {
        Call::RD(named.task, named.address)
    }
}

// A request of an open transaction.
fn of_open(board: Board, named: Named, now: Moment) -> Call {
    if now.draw(What::Ends, board.ends) != 0 {
        return used(board.writes, named, now);
    }
    let end = now.draw(What::End, 8);
    if end == 0 {
        Call::AB(named.task)
    } else if end <= board.waits {
        Call::WT(named.task)
    } else {
        Call::CM(named.task)
    }
}

// A request that the phase of the task allows.
fn allowed(stage: Stage, board: Board, named: Named, now: Moment) -> Call {
    match stage {
        Stage::Idle => Call::ST(named.task),
        Stage::Open => of_open(board, named, now),
        _ => Call::SP(named.task),
    }
}

// Now and then a look-up or any call at all, and otherwise a request that the phase of the task allows.
fn call_for(stage: Stage, board: Board, named: Named, now: Moment) -> AnyCall {
    if now.draw(What::Looks, 12) == 0 {
        AnyCall::Look(named.address)
    } else if now.draw(What::Odd, board.odd) == 0 {
        any_of(now.draw(What::OddKind, 9), named)
    } else {
        AnyCall::Ask(allowed(stage, board, named, now))
    }
}

// Mostly a task of the board, and now and then the number after the last.
fn task_of(sizes: Sizes, now: Moment) -> usize {
    if now.draw(What::PastTasks, 40) == 0 {
        sizes.tasks
    } else {
        now.draw(What::Task, sizes.tasks)
    }
}

// The same of addresses. Where not all are drawn, every other one is a full turn of the records further on.
fn address_of(board: Board, now: Moment) -> usize {
    let Sizes { words, records, .. } = board.lent.sizes;
    if now.draw(What::PastWords, 40) == 0 {
        return words;
    }
    let a = now.draw(What::Address, board.drawn);
    if board.drawn < words && a % 2 == 1 {
        a.saturating_add(records)
    } else {
        a
    }
}

// The sizes that a call is given: the board's own, but no words for an opening, so that it is refused, and now and then one task
// more than is lent.
fn sizes_for(own: Sizes, call: AnyCall, now: Moment) -> Sizes {
    let words = match call {
        AnyCall::Open(_) => 0,
        _ => own.words,
    };
    let tasks = if now.draw(What::Unfit, 100) == 0 {
        own.tasks.saturating_add(1)
    } else {
        own.tasks
    };
    Sizes {
        words,
        tasks,
        ..own
    }
}
