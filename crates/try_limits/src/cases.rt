// A call of the script: one that prepares a case, a case, or a case on a table that was spoiled.
use crate::board::Board;
use crate::line::Told;
use crate::telling::{shown, tell};
use memory::{Call, Looked};
use std::io;
use try_serial::asked::AnyCall;

// A call that prepares a case is to answer 0.
fn prepare(rt: &impl Print, call: AnyCall, board: &mut Board) -> io::Result<()> {
    let number = shown(board.ask(call)).number;
    if number != 0 {
        println!(rt; "a call that prepares a case: {number}")?;
    }
    Ok(())
}

// What the last address of a board holds that was just opened.
fn say_last(rt: &impl Print, board: &mut Board) -> io::Result<()> {
    let last = AnyCall::Look(board.lent.words.saturating_sub(1));
    let Looked { value, version, .. } = shown(board.ask(last));
    println!(rt; ", its last address: value {value}, version {version}")
}

fn case(rt: &impl Print, call: AnyCall, task: usize, board: &mut Board) -> io::Result<()> {
    let seen = board.see(call, task);
    let looked = shown(seen.looked);
    tell(rt, call, looked, seen.changed)?;
    if matches!(call, AnyCall::Open(_)) && looked.number == 0 {
        say_last(rt, board)
    } else {
        println!(rt)
    }
}

// A case on a board that was spoiled. Then the sound one is put back, and the number is told that the same call answers there.
fn spoiled(rt: &impl Print, call: AnyCall, task: usize, board: &mut Board) -> io::Result<()> {
    let seen = board.see(call, task);
    tell(rt, call, shown(seen.looked), seen.changed)?;
    board.put_back();
    let before = shown(board.ask(call)).number;
    println!(rt; "; before that {before}")?;
    board.put_back();
    Ok(())
}

// The call of a line.
pub fn call(
    rt: &impl Print,
    told: Option<Told>,
    call: AnyCall,
    task: usize,
    board: &mut Board,
) -> io::Result<()> {
    match told {
        Some(Told::Spoiled) => spoiled(rt, call, task, board),
        Some(Told::Case) => case(rt, call, task, board),
        Some(Told::Remark) | None => prepare(rt, call, board),
    }
}

// How many of the addresses 0 to 63 a task may read.
pub fn fill(rt: &impl Print, task: usize, board: &mut Board) -> io::Result<()> {
    let accepted = (0..64)
        .filter(|address| shown(board.ask(AnyCall::Ask(Call::RD(task, *address)))).number == 0)
        .count();
    println!(rt; "addresses accepted: {accepted}")
}
