// What a line asks for, by its mark. The marks of the requests are those of a session.
use crate::board::Cell;
use crate::line::Head;
use memory::Call;
use try_calls::exactly;
use try_serial::asked::{AnyCall, Lent};

#[derive(Clone, Copy)]
pub enum Act {
    Call(AnyCall),
    Lend,
    Store(Cell, u32),
    Keep,
    Show,
    Fill,
    Nothing,
    Unknown,
}

fn request(call: Call) -> Act {
    Act::Call(AnyCall::Ask(call))
}

impl Head {
    // The first number of a line is an opening's first version, a look-up's address, the task of a request or of the place that is
    // shown, or the place where a number is stored.
    pub fn first(&self) -> usize {
        self.numbers[1] as usize
    }

    pub fn act(&self) -> Act {
        let [_, first, second, third] = self.numbers;
        let t = first as usize;
        let a = second as usize;
        match &self.mark {
            b"\0OP" => Act::Call(AnyCall::Open(first)),
            b"\0LK" => Act::Call(AnyCall::Look(t)),
            b"\0ST" => request(Call::ST(t)),
            b"\0RD" => request(Call::RD(t, a)),
            b"\0WR" => request(Call::WR(t, a, third)),
            b"\0AB" => request(Call::AB(t)),
            b"\0CM" => request(Call::CM(t)),
            b"\0WT" => request(Call::WT(t)),
            b"\0SP" => request(Call::SP(t)),
            b"\0SZ" | b"\0LW" | b"\0LR" | b"\0LP" | b"\0LE" => Act::Lend,
            // A number stored straight into a record, a column of a place, or a column of an entry.
            b"\0XR" => Act::Store(Cell::Record(t), second),
            b"\0XP" => Act::Store(Cell::Place(t, a), third),
            b"\0XE" => Act::Store(Cell::Entry(t, a), third),
            // The board is kept, to be put back after each case on a spoiled one.
            b"\0KP" => Act::Keep,
            b"\0SH" => Act::Show,
            // A task reads the addresses 0 to 63.
            b"\0FL" => Act::Fill,
            b"\0\0\0" => Act::Nothing,
            _ => Act::Unknown,
        }
    }

    // What is lent from this line on: the sizes, with tables lent as they ask; or so many words, records, places or entries.
    pub fn lends(&self, lent: Lent) -> Lent {
        let [_, first, second, third] = self.numbers;
        let n = first as usize;
        match &self.mark {
            b"\0SZ" => exactly(n, second as usize, third as usize),
            b"\0LW" => Lent { words: n, ..lent },
            b"\0LR" => Lent { records: n, ..lent },
            b"\0LP" => Lent { places: n, ..lent },
            b"\0LE" => Lent { entries: n, ..lent },
            _ => lent,
        }
    }
}
