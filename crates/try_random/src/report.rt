// The tally as text on standard output.
use crate::tally::Tally;
use std::io;
use try_serial::ledger::Counts;

// The numbers that a call answers (§9), and what they say.
const ANSWERS: [(usize, &str); 14] = [
    (0, "done"),
    (1, "unsound"),
    (2, "out of range"),
    (3, "no such task"),
    (4, "not in this phase"),
    (5, "no such address"),
    (6, "64 entries"),
    (7, "nothing to wait for"),
    (8, "no version left"),
    (9, "overtaken"),
    (20, "asleep"),
    (21, "committed"),
    (22, "failed"),
    (23, "woken"),
];

fn played(rt: &impl Print, tally: &Tally) -> io::Result<()> {
    let Tally {
        schedules,
        calls,
        addresses,
        ..
    } = *tally;
    println!(rt; "schedules: {schedules}")?;
    println!(rt; "calls: {calls}")?;
    println!(rt; "addresses found the same: {addresses}")
}

fn answered(rt: &impl Print, tally: &Tally) -> io::Result<()> {
    for (number, name) in ANSWERS {
        let times = tally.answers.get(number).copied().unwrap_or(0);
        println!(rt; "{number}, {name}: {times}")?;
    }
    Ok(())
}

fn lists(rt: &impl Print, counts: Counts) -> io::Result<()> {
    let Counts {
        joined,
        emptied,
        chained,
        failed_takers,
    } = counts;
    println!(rt; "joined a list: {joined}")?;
    println!(rt; "lists emptied: {emptied}")?;
    println!(rt; "lists emptied in a chain: {chained}")?;
    println!(rt; "takers failed by a list: {failed_takers}")
}

fn differences(rt: &impl Print, tally: &Tally) -> io::Result<()> {
    let count = tally.differences;
    println!(rt; "differences: {count}")?;
    if let Some((schedule, call)) = tally.first {
        println!(rt; "first at schedule: {schedule}")?;
        println!(rt; "first at its call: {call}")?;
    }
    Ok(())
}

pub fn print(rt: &impl Print, tally: &Tally, counts: Counts) -> io::Result<()> {
    played(rt, tally)?;
    answered(rt, tally)?;
    lists(rt, counts)?;
    differences(rt, tally)
}
