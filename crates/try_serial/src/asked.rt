// What both machines are asked: any call as a value, on tables that are lent as long as it is told.
use memory::{Call, Sizes};

// An opening with its first version, a look-up of an address, or a request.
#[derive(Clone, Copy)]
pub enum AnyCall {
    Open(u32),
    Look(usize),
    Ask(Call),
}

// The sizes of a board, and how many places of each table are lent.
#[derive(Clone, Copy)]
pub struct Lent {
    pub sizes: Sizes,
    pub words: usize,
    pub records: usize,
    pub places: usize,
    pub entries: usize,
}
