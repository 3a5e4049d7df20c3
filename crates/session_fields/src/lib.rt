// The numbers in the body of a record of a session file (§11.2), by the table of widths.

#![tactic(auto)]

ghost use Rattle.std.specs.Prelude.{◌≡◌, ◌^◌, ◌<◌, ◌≤◌, get_or, sum};
ghost use Rattle.session_fields.specs.Fields as spec;

use session_marks::Kind;

// §11.2: the numbers of an opening and those of a request, by their places in a row of the table of widths.
// Stay numbers: a sheet counts its columns through the same rows, whatever the kind of the record.
pub const WORDS: usize = 0;

pub const RECORDS: usize = 1;

pub const TASKS: usize = 2;

pub const FIRST: usize = 3;

pub const TASK: usize = 0;

pub const ADDRESS: usize = 1;

pub const VALUE: usize = 2;

// §11.2: the bytes of each number of a body, in their order, and 0 for a number that it has not. Every length and every offset
// comes from this table.
fn widths(kind: Kind) -> [usize; 4]
    ensures { result ≡ spec.widths kind }
{
    match kind {
        Kind::Open => [2, 2, 1, 4],
        Kind::Start | Kind::Commit | Kind::Abort | Kind::Wait | Kind::Step => [1, 0, 0, 0],
        Kind::Read => [1, 2, 0, 0],
        Kind::Write => [1, 2, 4, 0],
    }
}

// The bytes of one number of a body, 0 where it has none.
pub fn width(kind: Kind, field: usize) -> usize
    ensures { (result ≡ spec.width kind field) × (result ≤ 4) }
{
    widths(kind).get(field).copied().unwrap_or(0)
}

fn total(widths: &[usize]) -> usize
    requires { sum widths.now < 2 ^ 64 }
    ensures { result ≡ sum widths.now }
{
    widths.iter().sum()
}

// Where a number of a body begins: behind those before it.
fn offset(kind: Kind, field: usize) -> usize
    requires { field ≤ 4 }
    ensures { result ≡ spec.offset kind field }
{
    total(&widths(kind)[..field])
}

// How many bytes a body has.
pub fn body_length(kind: Kind) -> usize
    ensures { result ≡ spec.body_length kind }
{
    total(&widths(kind))
}

// The byte at a place of a body. What is not there counts 0.
pub fn byte_at(body: &[u8], at: usize) -> u8
    ensures { result ≡ get_or body.now at 0 }
{
    body.get(at).copied().unwrap_or(0)
}

// The number of so many bytes at a place of a body, from its highest byte down. It stays a loop, since a number has one to four bytes.
// That a width is no more than four stays a clause: every width comes from the table above.
fn number_at(body: &[u8], width: usize, at: usize) -> u32
    requires { (width ≤ 4) × (at ≤ 16) }
    ensures { (result ≡ spec.number_at width at body.now) × (result < 256 ^ width) }
{
    let mut number: u32 = 0;
    for i in (0..width).rev() {
        number = u32::from(byte_at(body, at + i)) + 256 * number;
    }
    number
}

// A number of a body by its place in the table of widths.
pub fn number(body: &[u8], kind: Kind, field: usize) -> u32
    requires { field < 4 }
    ensures { (result ≡ spec.number kind field body.now) × (result < 256 ^ spec.width kind field) }
{
    number_at(body, width(kind, field), offset(kind, field))
}
