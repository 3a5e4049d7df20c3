// A task's row by itself (§10): whether it is right, and the first entry by which its task may own a record.

#![tactic(auto)]

ghost use Rattle.std.specs.Prelude.{◌≡◌, true};
ghost use Rattle.memory.specs.Pieces.{place_of};
ghost use Rattle.memory.specs.Sound.{place_ok};
ghost use Rattle.table_places.specs.Places.{owns_in, owns_from};

use memory::{Phase, Place, PlaceRow, Sizes};

// §10.3, §10.4: a task's row by itself: it is that of the place that is read from it, and the place's numbers fit together.
pub fn place_ok(sizes: Sizes, row: PlaceRow) -> bool
    ensures { result ≡ place_ok sizes row (place_of row) }
{
    // Number by number, and not as a place: so the compiler sees that the code is the row's, and the walk takes less time.
    let count = row[0] as usize;
    let stored = row[2] as usize;
    let phase = Phase::of(row[1], stored);
    let position = phase.position();
    let code = phase.code();
    if sizes.limit() < count {
        return false;
    }
    if code != row[1] {
        return false;
    }
    if position != stored {
        return false;
    }
    if phase.is_idle() {
        return count == 0;
    }
    position <= count
}

// §10.8: the first entry by which a task in this phase may own a record, past them all where a phase owns none. It stays a number then,
// as in the definition `owns_in`: the walk compares each entry with it.
fn owns_in(sizes: Sizes, phase: Phase) -> usize
    ensures { result ≡ owns_in sizes phase }
{
    match phase {
        Phase::Idle | Phase::Open => sizes.limit(),
        Phase::Taking(_, _) | Phase::Asleep | Phase::Writing(_) => 0,
        Phase::Releasing(_, position) => position,
    }
}

// The same of a task's row.
pub fn owns_from(sizes: Sizes, row: PlaceRow) -> usize
    requires { place_ok sizes row (place_of row) ≡ true }
    ensures { result ≡ owns_from sizes (place_of row) }
{
    owns_in(sizes, Place::from(row).phase)
}
