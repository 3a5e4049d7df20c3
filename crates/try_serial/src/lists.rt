// The lists of those who sleep with another, over what `ledger` keeps: who joins one, and who ends with a task.
use crate::board::{Record, Task};
use crate::ledger::Ledger;
use crate::limits;
use crate::log::{End, Log, Stage};

// Who of all tasks ends.
type Ending = [bool; limits::TASKS];

// A task is moved on where it takes or sleeps.
fn move_on(log: &mut Log) {
    match log.stage {
        Stage::Taking(_) => log.go(Stage::Releasing(End::Failed)),
        Stage::Asleep => log.go(Stage::Releasing(End::Woken)),
        _ => {}
    }
}

impl Ledger {
    // A task that would sleep is on a sleeper's list from now on, if both saw the record at one version.
    pub fn beside(&mut self, t: Task, r: Record, h: Task) {
        let seen = self.logs[t.index].mark(r).seen;
        if self.logs[h.index].mark(r).seen == seen {
            self.logs[h.index].list[t.index] = true;
            self.logs[t.index].advance();
            self.counts.joined = self.counts.joined.saturating_add(1);
        } else {
            self.logs[t.index].go(Stage::Releasing(End::Failed));
        }
    }

    // A task has come upon a record that another one holds: that one ends, and all that are on lists with it.
    pub fn meet(&mut self, h: Task) {
        let ending = self.ending_with(h);
        self.count_lists(&ending);
        for (index, log) in self.logs.iter_mut().enumerate() {
            if ending[index] {
                log.list.fill(false);
                if index != h.index && matches!(log.stage, Stage::Taking(_)) {
                    self.counts.failed_takers = self.counts.failed_takers.saturating_add(1);
                }
                move_on(log);
            }
        }
    }

    // Whoever is on the list of one that ends, ends too. After as many rounds as there are tasks nobody is forgotten.
    fn ending_with(&self, h: Task) -> Ending {
        let mut ending = [false; limits::TASKS];
        ending[h.index] = true;
        for _ in 0..limits::TASKS {
            for (w, log) in self.logs.iter().enumerate() {
                if ending[w] {
                    follow(&mut ending, &log.list);
                }
            }
        }
        ending
    }

    // Counts the lists that those who end lose, once more where one of them is on another's.
    fn count_lists(&mut self, ending: &Ending) {
        for (t, log) in self.logs.iter().enumerate() {
            if ending[t] && log.list.contains(&true) {
                self.counts.emptied = self.counts.emptied.saturating_add(1);
                if self.logs.iter().any(|other| other.list[t]) {
                    self.counts.chained = self.counts.chained.saturating_add(1);
                }
            }
        }
    }
}

fn follow(ending: &mut Ending, list: &Ending) {
    for (ends, listed) in ending.iter_mut().zip(list) {
        if *listed {
            *ends = true;
        }
    }
}
