//! The last number that was drawn.
ghost use Rattle.std.specs.Prelude.{◌≡◌, ◌≤◌, IfOk, IsTrue};
ghost use Rattle.std.specs.FinMap as map;
ghost use Rattle.host_calls.specs.Damages.{IfDamaged};
ghost use Rattle.host_calls.specs.Session.{CallsInside, IsInside};
ghost use Rattle.host_calls.specs.World.{reading};
ghost use Rattle.spool_model.specs.declared.number.TheConstants.{LAST_NUMBER};
ghost use Rattle.sequence_file.specs.Sequence.{GivesNumber, sequence_file};
ghost use Rattle.sequence_file.specs.Faults.{IsSequenceDamage};

use crate::SequenceFault;
use crate::names::sequence_name;
use crate::text::read_sequence;
use host_calls::Host;
use std::alloc::Global;
use whole_file::first_bytes;

// As many bytes decide what the file gives, and where it is damaged: those of a number, and one that no right file has.
const DECISIVE_BYTES: usize = 10;

/// The last number that was drawn: 0 where there is no sequence file.
#[tactic(auto, using(crate::proofs::FirstBytes::number_of_start, crate::proofs::FirstBytes::damage_of_start))]
pub fn last<H: Host>(alloc: Global, host: &mut H) -> Result<u32, SequenceFault>
    requires { IsInside (H.session host.old) }
    ensures inside { CallsInside SequenceFault.Failed (H.session host.old) (H.session host.new) result }
    ensures looks { IsTrue H.tells → H.world host.new ≡ H.world host.old }
    ensures few { IfOk result (λ number. number ≤ LAST_NUMBER) }
    ensures number { IsTrue H.tells
        → IfOk result (GivesNumber (map.get (reading (H.world host.old)) sequence_file)) }
    ensures damaged { IsTrue H.tells
        → IfDamaged SequenceFault.Damaged (IsSequenceDamage (map.get (reading (H.world host.old)) sequence_file)) result }
{
    let Some(first) = first_bytes(alloc, host, &sequence_name(), DECISIVE_BYTES)? else {
        return Ok(0);
    };
    match read_sequence(first.as_slice()) {
        Ok(number) => Ok(number),
        Err(damage) => Err(SequenceFault::Damaged(damage)),
    }
}
