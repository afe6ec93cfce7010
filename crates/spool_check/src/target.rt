//! The new directory.
ghost use Rattle.std.specs.Prelude.{◌≡◌, ◌≢◌, false, true, Err, IfErr, IsTrue, OnOk, is_some};
ghost use Rattle.std.specs.List.{list_any};
ghost use Rattle.host_calls.specs.Directory.{IsInNoImage};
ghost use Rattle.host_calls.specs.Session.{CallsInside, IsInside};
ghost use Rattle.host_calls.specs.World.{reading};
ghost use Rattle.job_name.specs.JobName.{job_named};
ghost use Rattle.spool_faults.specs.Listed.{LeavesDirectory};
ghost use Rattle.spool_check.specs.inside.CopiedFiles.{IsBare, HasOneImage};
ghost use Rattle.spool_check.specs.Faults.{IsTargetFault};
ghost use Rattle.spool_check.specs.SalvageOutcome.{is_of_spool, is_spool};
ghost use Rattle.whole_file.specs.Others.{ChangesFiles};
ghost use Rattle.whole_file.specs.Placement.{IsPlaced, IsPlacing};
ghost use Rattle.whole_file.specs.Temporary.{temporary_file};

use crate::SalvageFault;
use crate::fault::of_target;
use host_calls::{Host, Name};
use job_name::JobName;
use sequence_file::sequence_name;
use start_journal::journal_name;
use std::alloc::Global;
use whole_file::{place, temporary_name};

// Settles the directory, and refuses one that has files of a spool.
pub(crate) fn open_target<G: Host>(alloc: Global, to: &mut G) -> Result<(), SalvageFault>
    requires { IsInside (G.session to.old) }
    ensures inside { CallsInside SalvageFault.ToFailed (G.session to.old) (G.session to.new) result }
    ensures not_source { result ≢ Err SalvageFault.FromFailed }
    ensures leaves { IsTrue G.tells → LeavesDirectory (G.world to.old) (G.world to.new) }
    ensures refused { IsTrue G.tells → result ≡ Err SalvageFault.NotEmpty → is_spool (reading (G.world to.old)) ≡ true }
    ensures empty { IsTrue G.tells → OnOk result (IsBare (G.world to.new).now.directory) }
{
    settle(alloc, to)?;
    refuse_spool(alloc, to)
}

fn settle<G: Host>(alloc: Global, to: &mut G) -> Result<(), SalvageFault>
    requires { IsInside (G.session to.old) }
    ensures inside { CallsInside SalvageFault.ToFailed (G.session to.old) (G.session to.new) result }
    ensures of { IfErr result IsTargetFault }
    ensures leaves { IsTrue G.tells → LeavesDirectory (G.world to.old) (G.world to.new) }
    ensures settled { IsTrue G.tells → OnOk result (HasOneImage (G.world to.new).now.directory) }
{
    match to.settle(alloc) {
        Ok(()) => Ok(()),
        Err(fault) => Err(of_target(fault)),
    }
}

fn refuse_spool<G: Host>(alloc: Global, to: &mut G) -> Result<(), SalvageFault>
    requires { IsInside (G.session to.old) }
    ensures inside { CallsInside SalvageFault.ToFailed (G.session to.old) (G.session to.new) result }
    ensures not_source { result ≢ Err SalvageFault.FromFailed }
    ensures looks { IsTrue G.tells → G.world to.new ≡ G.world to.old }
    ensures refused { IsTrue G.tells → result ≡ Err SalvageFault.NotEmpty → is_spool (reading (G.world to.old)) ≡ true }
    ensures empty { IsTrue G.tells → OnOk result (is_spool (reading (G.world to.old)) ≡ false) }
{
    let names = match to.names(alloc) {
        Ok(names) => names,
        Err(fault) => return Err(of_target(fault)),
    };
    if is_any_of_spool(names.as_slice()) {
        return Err(SalvageFault::NotEmpty);
    }
    Ok(())
}

fn is_any_of_spool(names: &[Name]) -> bool
    ensures { result ≡ list_any is_of_spool names.now }
{
    names.iter().any(|name| is_of_spool(name.as_bytes()))
}

// Whether the name is that of a file of a spool.
fn is_of_spool(name: &[u8]) -> bool
    ensures { result ≡ is_of_spool name.now }
{
    name == sequence_name().as_bytes()
        || name == journal_name().as_bytes()
        || name == temporary_name().as_bytes()
        || is_of_job(name)
}

pub(crate) fn is_of_job(name: &[u8]) -> bool
    ensures { result ≡ is_some (job_named name.now) }
{
    JobName::read(name).is_some()
}

// Gives the target these bytes, so that a crash leaves it as it was or whole.
pub(crate) fn place_whole<G: Host>(
    alloc: Global,
    to: &mut G,
    target: &Name,
    bytes: &[u8],
) -> Result<(), SalvageFault>
    requires inside { IsInside (G.session to.old) }
    requires differ { temporary_file ≢ target.now }
    requires no_temp { IsTrue G.tells → IsInNoImage (G.world to.old).now.directory temporary_file }
    ensures inside { CallsInside SalvageFault.ToFailed (G.session to.old) (G.session to.new) result }
    ensures of { IfErr result IsTargetFault }
    ensures files { IsTrue G.tells
        → ChangesFiles (IsPlacing temporary_file target.now bytes.now (G.world to.old).now.directory)
        (G.world to.old) (G.world to.new) }
    ensures placed { IsTrue G.tells → OnOk result (IsPlaced temporary_file target.now bytes.now
        (G.world to.old).now.directory (G.world to.new).now.directory) }
{
    match place(alloc, to, &temporary_name(), target, bytes) {
        Ok(()) => Ok(()),
        Err(fault) => Err(of_target(fault)),
    }
}
