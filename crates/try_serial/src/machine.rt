// The requests and the step, over what `ledger` keeps.
use crate::board::{Record, Task};
use crate::ledger::Ledger;
use crate::log::{Aim, End, Line, Stage};
use crate::refusal::Refusal;
use crate::{limits, plain};
use memory::{Call, Looked};

// What a step answers that goes on, and one that finds its task asleep.
// What a step answers stays a number: it is compared with the memory's (§9).
const DONE: u32 = 0;

const ASLEEP: u32 = 20;

// No version may be followed by another one past the top.
fn below_top(version: u32, writes: bool) -> Result<(), Refusal> {
    if writes && version == limits::TOP {
        Err(Refusal::NoVersion)
    } else {
        Ok(())
    }
}

impl Ledger {
    pub fn request(&mut self, request: Call) -> Result<Looked, Refusal> {
        let mut looked = plain(DONE);
        match request {
            Call::ST(t) => self.enter(t, Stage::Idle, Stage::Open)?,
            Call::RD(t, address) => looked.value = self.read(t, address)?,
            Call::WR(t, address, value) => self.write(t, address, value)?,
            Call::AB(t) => self.abort(t)?,
            Call::CM(t) => self.enter(t, Stage::Open, Stage::Taking(Aim::Commit))?,
            Call::WT(t) => self.wait(t)?,
            Call::SP(t) => looked.number = self.step(t)?,
        }
        Ok(looked)
    }

    // The task of a request that asks for a stage.
    fn task_in(&self, index: usize, wanted: Stage) -> Result<Task, Refusal> {
        let t = self.board.task(index)?;
        if self.logs[t.index].stage == wanted {
            Ok(t)
        } else {
            Err(Refusal::TooEarly)
        }
    }

    // Start and Commit: from one stage to another.
    fn enter(&mut self, index: usize, from: Stage, to: Stage) -> Result<(), Refusal> {
        let t = self.task_in(index, from)?;
        self.logs[t.index].go(to);
        Ok(())
    }

    fn abort(&mut self, index: usize) -> Result<(), Refusal> {
        let t = self.task_in(index, Stage::Open)?;
        self.end(t);
        Ok(())
    }

    fn wait(&mut self, index: usize) -> Result<(), Refusal> {
        let t = self.task_in(index, Stage::Open)?;
        let log = &mut self.logs[t.index];
        if log.is_empty() {
            return Err(Refusal::NothingRead);
        }
        log.go(Stage::Taking(Aim::Sleep));
        Ok(())
    }

    // May an open task use an address? Its log then has a line for it.
    fn may_use(&self, t: Task, address: usize, writes: bool) -> Result<(), Refusal> {
        if !self.board.has(address) {
            return Err(Refusal::NoAddress);
        }
        let log = &self.logs[t.index];
        let r = self.board.record_of(address);
        let now = self.version(r);
        let seen = log.mark(r).seen.unwrap_or(now);
        if log.value(address).is_some() {
            return below_top(seen, writes);
        }
        if log.is_full() {
            return Err(Refusal::Full);
        }
        if seen != now {
            return Err(Refusal::Overtaken);
        }
        below_top(now, writes)
    }

    // The task that uses an address, once its log has a line for it: at first the value on the board, and the version of its record
    // as seen. Whoever was overtaken ends.
    fn using(&mut self, index: usize, address: usize, writes: bool) -> Result<Task, Refusal> {
        let t = self.task_in(index, Stage::Open)?;
        if let Err(refusal) = self.may_use(t, address, writes) {
            if refusal == Refusal::Overtaken {
                self.end(t);
            }
            return Err(refusal);
        }
        let r = self.board.record_of(address);
        let value = self.value(address);
        let version = self.version(r);
        let log = &mut self.logs[t.index];
        if log.value(address).is_none() {
            log.add(Line { address, value });
            log.see(r, version);
        }
        Ok(t)
    }

    fn read(&mut self, index: usize, address: usize) -> Result<u32, Refusal> {
        let t = self.using(index, address, false)?;
        Ok(self.logs[t.index].value(address).unwrap_or(0))
    }

    fn write(&mut self, index: usize, address: usize, value: u32) -> Result<(), Refusal> {
        let t = self.using(index, address, true)?;
        let r = self.board.record_of(address);
        let log = &mut self.logs[t.index];
        log.write(address, value);
        log.wrote(r);
        Ok(())
    }

    // A step: on the line at which the task is, and past the last one it ends what the task does.
    fn step(&mut self, index: usize) -> Result<u32, Refusal> {
        let t = self.board.task(index)?;
        let log = &self.logs[t.index];
        let line = log.line();
        match log.stage {
            Stage::Idle | Stage::Open => Err(Refusal::TooEarly),
            Stage::Asleep => Ok(ASLEEP),
            stage => Ok(match line {
                Some(line) => self.on_line(t, stage, self.board.record_of(line.address)),
                None => self.past_lines(t, stage),
            }),
        }
    }

    // A step on a line, whose record is r. The board has its words since the deciding step, so Writing only goes on.
    fn on_line(&mut self, t: Task, stage: Stage, r: Record) -> u32 {
        let log = &mut self.logs[t.index];
        match stage {
            Stage::Taking(aim) => self.take(t, aim, r),
            Stage::Releasing(_) => {
                log.hold(r, false);
                log.advance();
            }
            _ => log.advance(),
        }
        DONE
    }

    // A task has a record that it holds already, or that nobody holds and whose version is the one seen. It waits beside a sleeper,
    // and else it fails.
    fn take(&mut self, t: Task, aim: Aim, r: Record) {
        let holder = self.holder(r);
        let seen = self.logs[t.index].mark(r).seen;
        if holder == Some(t) || holder.is_none() && seen == Some(self.version(r)) {
            let log = &mut self.logs[t.index];
            log.hold(r, true);
            log.advance();
            return;
        }
        if let Some(h) = holder
            && aim == Aim::Sleep
            && self.logs[h.index].stage == Stage::Asleep
        {
            self.beside(t, r, h);
            return;
        }
        self.logs[t.index].go(Stage::Releasing(End::Failed));
        if let Some(h) = holder {
            self.meet(h);
        }
    }

    // The step after the last line: it ends the transaction, begins to release, or decides.
    fn past_lines(&mut self, t: Task, stage: Stage) -> u32 {
        let log = &mut self.logs[t.index];
        match stage {
            Stage::Releasing(end) => {
                self.end(t);
                end as u32
            }
            Stage::Taking(Aim::Sleep) => {
                log.go(Stage::Asleep);
                ASLEEP
            }
            Stage::Taking(Aim::Commit) => {
                log.go(Stage::Writing);
                self.settle(t);
                DONE
            }
            _ => {
                log.go(Stage::Releasing(End::Committed));
                DONE
            }
        }
    }
}
