// What was seen of a case, as text on standard output.
use crate::board::Changed;
use memory::{Call, Looked, PlaceRow};
use std::io;
use try_serial::asked::AnyCall;

// What is shown of a call that could not be asked: a number that no call answers. It stays one, since it is printed.
const NOT_ASKED: Looked = Looked {
    number: 99,
    value: 0,
    version: 0,
};

pub fn shown(looked: Option<Looked>) -> Looked {
    looked.unwrap_or(NOT_ASKED)
}

// §9.4: of 1 to 8 that nothing changed, and of 9 that nothing did but the task's own place.
fn say_effect(rt: &impl Print, number: u32, changed: Changed) -> io::Result<()> {
    let Changed { all, own } = changed;
    if number < 9 && all == 0 {
        print!(rt; ", nothing changed")
    } else if number == 9 && own != 0 && all == own {
        print!(rt; ", only the place of its task changed")
    } else {
        print!(rt; ", and numbers that changed: {all}")
    }
}

// What there is to see of a call that was not refused. Of the requests only a Read shows a value.
fn say_result(rt: &impl Print, call: AnyCall, looked: Looked) -> io::Result<()> {
    let Looked { value, version, .. } = looked;
    match call {
        AnyCall::Look(_) => print!(rt; ", value {value}, version {version}"),
        AnyCall::Ask(Call::RD(_, _)) => print!(rt; ", value {value}"),
        AnyCall::Open(_) | AnyCall::Ask(_) => Ok(()),
    }
}

// After a case's sentence: the number answered, and what there is to see of the call.
pub fn tell(rt: &impl Print, call: AnyCall, looked: Looked, changed: Changed) -> io::Result<()> {
    let number = looked.number;
    print!(rt; ": {number}")?;
    if number != 0 && number < 20 {
        say_effect(rt, number, changed)
    } else {
        say_result(rt, call, looked)
    }
}

// After a sentence: the numbers of a task's place (§3.4).
pub fn tell_place(rt: &impl Print, place: PlaceRow) -> io::Result<()> {
    let [entries, phase, position, joins] = place;
    println!(rt; ": entries {entries}, phase {phase}, position {position}, joins {joins}")
}
