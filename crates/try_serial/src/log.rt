// What the second machine keeps of a task: what it does, and its log.
use crate::board::Record;
use crate::limits;

// What a task takes records for.
#[derive(Clone, Copy, PartialEq, Eq)]
pub enum Aim {
    Sleep,
    Commit,
}

// How a transaction ends: the number that is answered when it comes to that.
#[derive(Clone, Copy, PartialEq, Eq)]
pub enum End {
    Committed = 21,
    Failed = 22,
    Woken = 23,
}

#[derive(Clone, Copy, PartialEq, Eq)]
pub enum Stage {
    Idle,
    Open,
    Taking(Aim),
    Asleep,
    Writing,
    Releasing(End),
}

// An address, and the value that the task has for it.
#[derive(Clone, Copy)]
pub struct Line {
    pub address: usize,
    pub value: u32,
}

// The version that a task saw at a record, whether it wrote there, and whether it holds it.
#[derive(Clone, Copy)]
pub struct Mark {
    pub seen: Option<u32>,
    pub wrote: bool,
    pub held: bool,
}

impl Mark {
    // The version that a record gets when the task commits.
    pub fn raised(self) -> u32 {
        self.seen.unwrap_or(0).saturating_add(u32::from(self.wrote))
    }
}

// A task's stage, and the number of the line at which it is there; its lines, with none after the last; a mark for each record; and
// for each task whether that one is on this one's list.
#[derive(Clone, Copy)]
pub struct Log {
    pub stage: Stage,
    position: usize,
    pub lines: [Option<Line>; limits::LINES],
    marks: [Mark; limits::RECORDS],
    pub list: [bool; limits::TASKS],
}

impl Log {
    // The log of a task that is Idle.
    pub fn empty() -> Log {
        let unseen = Mark {
            seen: None,
            wrote: false,
            held: false,
        };
        Log {
            stage: Stage::Idle,
            position: 0,
            lines: [None; limits::LINES],
            marks: [unseen; limits::RECORDS],
            list: [false; limits::TASKS],
        }
    }

    // The task goes to a stage, from its first line on.
    pub fn go(&mut self, stage: Stage) {
        self.stage = stage;
        self.position = 0;
    }

    pub fn advance(&mut self) {
        self.position = self.position.saturating_add(1);
    }

    // The line at which the task is, and none past the last.
    pub fn line(&self) -> Option<Line> {
        self.lines.get(self.position).copied().flatten()
    }

    pub fn is_empty(&self) -> bool {
        self.lines[0].is_none()
    }

    pub fn is_full(&self) -> bool {
        self.lines[limits::LINES - 1].is_some()
    }

    // What the log has for an address.
    pub fn value(&self, address: usize) -> Option<u32> {
        self.lines
            .iter()
            .flatten()
            .find(|line| line.address == address)
            .map(|line| line.value)
    }

    // A line after the last.
    pub fn add(&mut self, line: Line) {
        if let Some(free) = self.lines.iter().position(Option::is_none) {
            self.lines[free] = Some(line);
        }
    }

    // The line of an address takes a value.
    pub fn write(&mut self, address: usize, value: u32) {
        for line in self.lines.iter_mut().flatten() {
            if line.address == address {
                line.value = value;
            }
        }
    }

    pub fn mark(&self, r: Record) -> Mark {
        self.marks[r.index]
    }

    pub fn see(&mut self, r: Record, version: u32) {
        self.marks[r.index].seen = Some(version);
    }

    pub fn wrote(&mut self, r: Record) {
        self.marks[r.index].wrote = true;
    }

    pub fn hold(&mut self, r: Record, held: bool) {
        self.marks[r.index].held = held;
    }
}
