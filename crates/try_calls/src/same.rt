// Whether two answers are one. Where this let a difference through, a mistake of either machine would hide behind it, so it has a
// contract. That it answers true of equal ones is seen in what the programs print.
ghost use Rattle.std.specs.Prelude.{◌≡◌, true};

use memory::Looked;

pub fn same_answer(got: Looked, wanted: Looked) -> bool
    ensures { result ≡ true → got ≡ wanted }
{
    got == wanted
}
