// The look-up of an address for anybody, on a board whose tables are known to be sound: the part of the public call behind its check.

#![tactic(auto)]

ghost use Rattle.std.specs.Prelude.{◌≡◌};
ghost use Rattle.memory.specs.Lent.{lent};
ghost use Rattle.memory.specs.Requests as spec;

use memory::{Answer, Looked, Refusal, SoundBoard};

// §5.5, §5.6: what stands at an address, for anybody.
pub fn look_sound(sound: SoundBoard, address: usize) -> Looked
    ensures { result ≡ spec.look sound.entry.board.sizes (lent sound.entry.board) address }
{
    if sound.board.sizes.words <= address {
        return Looked::from(Answer::from(Refusal::NoAddress));
    }
    let seen = table_look::logical(sound, address);
    Looked::from(seen)
}
