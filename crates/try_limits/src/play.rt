// The script, line by line.
use crate::board::Board;
use crate::cases;
use crate::line::{Head, Line, Told};
use crate::marks::Act;
use crate::telling::tell_place;
use std::io;

// What a line asks for beside what is lent.
fn obey(rt: &impl Print, head: Head, told: Option<Told>, board: &mut Board) -> io::Result<()> {
    let first = head.first();
    match head.act() {
        Act::Call(call) => cases::call(rt, told, call, first, board)?,
        Act::Store(cell, number) => board.store(cell, number),
        Act::Keep => board.keep(),
        Act::Show => tell_place(rt, board.place(first))?,
        Act::Fill => cases::fill(rt, first, board)?,
        Act::Unknown => println!(rt; "A line has an unknown mark.")?,
        Act::Lend | Act::Nothing => {}
    }
    Ok(())
}

// What a line lends counts before its end too: nothing is called before that.
fn play_line(rt: &impl Print, line: Line, board: &mut Board) -> io::Result<()> {
    let mut head = Head::default();
    for byte in line.head {
        head.read(*byte);
        board.lent = head.lends(board.lent);
    }
    if let Some(Told::Case | Told::Spoiled) = line.told {
        rt.write_all(line.sentence)?;
    }
    obey(rt, head, line.told, board)
}

// What stands after the last end of a line is no line.
pub fn whole(rt: &impl Print, script: &[u8]) -> io::Result<()> {
    let mut board = Board::new();
    for text in script.split_inclusive(|byte| *byte == b'\n') {
        if let Some(text) = text.strip_suffix(b"\n") {
            play_line(rt, Line::of(text), &mut board)?;
        }
    }
    Ok(())
}
