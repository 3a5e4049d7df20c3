// What the second machine keeps, in other terms than the tables of §3: the serial board itself, a value for each address and a
// version for each record, which a transaction changes all at once at its deciding step, so that no word is looked up through
// an owner. Beside the board each task has its log.
use crate::board::{Board, Record, Task};
use crate::limits;
use crate::log::{Line, Log, Stage};
use crate::refusal::Refusal;
use memory::Looked;

// What is counted, over all openings: tasks that joined a list, lists that a waking emptied, those among them that were on a list
// themselves, and tasks that a waking found in Taking.
#[derive(Clone, Copy, Default)]
pub struct Counts {
    pub joined: u32,
    pub emptied: u32,
    pub chained: u32,
    pub failed_takers: u32,
}

#[derive(Drop)]
pub struct Ledger {
    pub board: Board,
    values: [u32; limits::WORDS],
    versions: [u32; limits::RECORDS],
    pub logs: [Log; limits::TASKS],
    pub counts: Counts,
}

impl Ledger {
    // No board yet.
    pub fn new() -> Ledger {
        Ledger {
            board: Board::smallest(),
            values: [0; limits::WORDS],
            versions: [0; limits::RECORDS],
            logs: [Log::empty(); limits::TASKS],
            counts: Counts::default(),
        }
    }

    // A fresh board, and every task Idle. What was counted stays.
    pub fn clear(&mut self, first: u32) {
        self.values.fill(0);
        self.versions.fill(first);
        self.logs.fill(Log::empty());
    }

    // What the serial board has at an address.
    pub fn at(&self, address: usize) -> Looked {
        Looked {
            number: 0,
            value: self.value(address),
            version: self.version(self.board.record_of(address)),
        }
    }

    // The look-up.
    pub fn look(&self, address: usize) -> Result<Looked, Refusal> {
        if self.board.has(address) {
            Ok(self.at(address))
        } else {
            Err(Refusal::NoAddress)
        }
    }

    pub fn value(&self, address: usize) -> u32 {
        self.values.get(address).copied().unwrap_or(0)
    }

    pub fn version(&self, r: Record) -> u32 {
        self.versions[r.index]
    }

    // The stage of a task by its number, and Idle of a number that is no task's.
    pub fn stage(&self, index: usize) -> Stage {
        self.logs.get(index).map_or(Stage::Idle, |log| log.stage)
    }

    // The task that holds a record.
    pub fn holder(&self, r: Record) -> Option<Task> {
        let index = self.logs.iter().position(|log| log.mark(r).held)?;
        Some(Task { index })
    }

    // What a commit decides, all at once: the board takes the value of each line, and the line's record its new version.
    pub fn settle(&mut self, t: Task) {
        let log = &self.logs[t.index];
        for &Line { address, value } in log.lines.iter().flatten() {
            let r = self.board.record_of(address);
            if let Some(word) = self.values.get_mut(address) {
                *word = value;
            }
            self.versions[r.index] = log.mark(r).raised();
        }
    }

    // Idle again, the log dropped, and off every list.
    pub fn end(&mut self, t: Task) {
        for log in &mut self.logs {
            log.list[t.index] = false;
        }
        self.logs[t.index] = Log::empty();
    }
}
