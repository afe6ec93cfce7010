//! Places in the slots of the journal that a file of a job contradicts.
ghost use Rattle.std.specs.Prelude.{◌≡◌, ◌+◌, ◌*◌, ◌^◌, ◌<◌};
ghost use Rattle.start_journal.specs.Journals.{gate_damage, queue_damage};

use crate::journal_name;
use crate::slot::SLOT;
use host_calls::Damage;

// The place of the queue in a slot.
const QUEUE: u64 = 10;

/// The damage at the gate of the slot of this place, which is open.
pub fn gate_damage(place: u64) -> Damage
    requires { 32 * place < 2 ^ 64 }
    ensures { result ≡ gate_damage place }
{
    Damage {
        name: journal_name(),
        offset: SLOT as u64 * place,
        byte: Some(b'+'),
    }
}

/// The damage at the queue in the slot of this place, where that queue is.
pub fn queue_damage(place: u64, queue: u8) -> Damage
    requires { 32 * place + 10 < 2 ^ 64 }
    ensures { result ≡ queue_damage place queue }
{
    Damage {
        name: journal_name(),
        offset: SLOT as u64 * place + QUEUE,
        byte: Some(queue),
    }
}
