// An entry held against those before it on its record, and a record marked as owned: two turns of the walk over the tables, by themselves.

#![tactic(auto)]

ghost use Rattle.std.specs.Prelude.{◌⊎◌, ◌-◌, ◌≤◌, ◌<◌, length};
ghost use Rattle.memory.specs.Pieces.{most_entries, most_tasks};
ghost use Rattle.table_pairs.specs.Pairs.{New, Met, Marked};

use memory::EntryRow;

// What was found: a fault, or none; the greatest address of the entries that another one of the task has followed on their record; and
// how many of the entries before have yet to be compared, address by address.
// Stays a flag beside values: with an Option of them the walk took 5 to 23 % more time on boards with entries.
#[derive(Clone, Copy)]
pub struct Against {
    pub fault: bool,
    pub top: u32,
    pub until: usize,
}

// Holds entry i of a run against the last entry on its record, which the record's cell tells, counted from `base`. Its versions are that
// one's, since all before it agree. Its address is no other's if it is above `top`, so that then no pair is tried.
pub fn hold_against(
    run: &[EntryRow],
    base: usize,
    seen: usize,
    top: u32,
    i: usize,
    entry: EntryRow,
) -> Against
    requires { (i < most_entries) × (i < length run.now) × (base ≤ seen → seen - base < i) }
    ensures { (result.until ≤ i) × (New base seen top result ⊎ Met run.now base seen top i entry result) }
{
    if seen < base {
        return Against {
            fault: false,
            top,
            until: 0,
        };
    }
    let at = seen - base;
    let other = run[at];
    let good = table_parts::agree(other, entry);
    let top = top.max(other[0]);
    if top < entry[0] {
        return Against {
            fault: !good,
            top,
            until: 0,
        };
    }
    // It is i, in a form that tells the compiler how small it is.
    let until = i % memory::MOST_ENTRIES;
    Against {
        fault: !good,
        top,
        until,
    }
}

// Marks a record as owned, if entry i is one by which the task may own it, and the record says that it does.
pub fn mark_owned(
    records: &[u32],
    owned: &mut [bool],
    record: usize,
    task: usize,
    from: usize,
    i: usize,
)
    requires { («record» < length records.now) × («record» < length owned.old) × (task < most_tasks) }
    ensures { Marked records.now owned.old «record» task from i owned.new }
{
    if i < from {
        return;
    }
    let owner = memory::FIRST_OWNER + task as u32;
    if records[record] == owner {
        owned[record] = true;
    }
}
