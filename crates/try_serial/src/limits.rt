// The limits of §2, written out once more: they are facts of the specification, and a wrong number in the memory is to show here.
// The words, records and tasks of a board.
pub const WORDS: usize = 4096;

pub const RECORDS: usize = 1024;

pub const TASKS: usize = 32;

// The lines of a task's log.
pub const LINES: usize = 64;

// The last version that there is.
pub const TOP: u32 = 2147483647;
