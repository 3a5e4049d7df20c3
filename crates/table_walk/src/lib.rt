// The walk over the tables, part by part: each task's row and entries, and then the records.

#![tactic(auto)]

ghost use Rattle.std.specs.Prelude.{◌≡◌, [], ◌≤◌, length};
ghost use Rattle.memory.specs.Pieces.{memory};
ghost use Rattle.table_walk.specs.Walk.{Fit, Room, tables_ok, records_ok};

use memory::{EntryRow, PlaceRow, Sizes};

// What every record holds. It goes to the end of the table, so that the compiler takes many records at a time.
fn records_ok(records: &[u32], owned: &[bool]) -> bool
    requires { length records.now ≤ length owned.now }
    ensures { result ≡ records_ok records.now owned.now (length records.now) }
{
    records.iter().zip(owned).fold(
        true,
        |right, (number, owned)| right & table_parts::record_ok(*number, *owned),
    )
}

// Each task's row and entries, and then the records. Three tables save work: `told` has the address of each entry of the task that
// was passed; `met` has for each record the last entry on it of the last task with one, counted from that task's `base`, so that
// only an entry on a record that its task has met is held against others: its versions against that one's, since all before it
// agree, and its address against all; `owned` has the records whose owner was found to have an entry on them, so that no record is
// searched for. What earlier tasks left in `met` is below `base`, and so is 0, for none: it stays numbers, since one comparison tells
// both from an entry of this task. `top` is the greatest address of the entries
// that another one of the task has followed on their record: an address above it is that of no entry before it on its record, and so
// of none, and no pair is tried.
pub fn tables_ok(
    sizes: Sizes,
    records: &[u32],
    places: &[PlaceRow],
    entries: &[EntryRow],
    met: &mut [u16],
    owned: &mut [bool],
) -> bool
    requires { Fit sizes (memory [] records.now places.now entries.now) × Room sizes met.old owned.old }
    ensures { result ≡ tables_ok sizes (memory [] records.now places.now entries.now) }
{
    let by = table_parts::inverse_of(sizes);
    // Larger limits end here first: an address is noted in 16 bits, and so is an entry with its task.
    let mut told = [0u16; memory::MOST_ENTRIES];
    let mut t: usize = 0;
    // Stays a while loop, left by `break 'tasks` (document 01): behind it t tells whether it was left at a fault.
    'tasks: while t < sizes.tasks {
        let place = places[t];
        if !table_places::place_ok(sizes, place) {
            break 'tasks;
        }
        let n = place[0] as usize;
        let from = table_places::owns_from(sizes, place);
        let base = sizes.run_start(t + 1);
        let start = sizes.run_start(t);
        let run = &entries[start..];
        let mut top: u32 = 0;
        'entries: for i in 0..n {
            // From here on a fault is that of entry i of task t: what tells the entry at fault goes with these breaks.
            let entry = run[i];
            if !table_parts::entry_ok(sizes, entry) {
                break 'tasks;
            }
            let record = table_parts::record_of(sizes, by, entry);
            let address = entry[0] as u16;
            let seen = met[record] as usize;
            let found = table_pairs::hold_against(run, base, seen, top, i, entry);
            if found.fault {
                break 'tasks;
            }
            top = found.top;
            let until = found.until;
            // Stays a loop over pairs, left at the first fault (document 01).
            'pairs: for j in 0..until {
                if told[j] == address {
                    break 'tasks;
                }
            }
            told[i] = address;
            met[record] = (base + i) as u16;
            table_pairs::mark_owned(records, owned, record, t, from, i);
        }
        t += 1;
    }
    t == sizes.tasks && records_ok(records, owned)
}
