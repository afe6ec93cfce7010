//! Copying files of jobs.
ghost use Rattle.std.specs.Prelude.{◌≡◌, ◌≢◌, [], Err, IsSome, IsTrue, OnOk};
ghost use Rattle.std.specs.FinMap as map;
ghost use Rattle.host_calls.specs.Directory.{IsInNoImage};
ghost use Rattle.host_calls.specs.Session.{CallsInside, IsInside};
ghost use Rattle.host_calls.specs.World.{reading};
ghost use Rattle.job_name.specs.JobName.{job_named};
ghost use Rattle.spool_check.specs.inside.CopiedFiles.{AreHeld, AreJobNames, EachHasFile, EachHasCopies, IsCopied, IsCopyName};
ghost use Rattle.whole_file.specs.Others.{ChangesFiles, IsEither, LeavesOthers};
ghost use Rattle.whole_file.specs.Temporary.{temporary_file};

use crate::SalvageFault;
use crate::source::bytes_of;
use crate::target::{is_of_job, place_whole};
use host_calls::{Host, Name};
use std::alloc::Global;

// Copies those of the named files that are jobs', one by one. Each of the names is that of a file.
pub(crate) fn copy_all<H: Host, G: Host>(
    alloc: Global,
    from: &mut H,
    to: &mut G,
    names: &[Name],
) -> Result<(), SalvageFault>
    requires inside_from { IsInside (H.session from.old) }
    requires inside_to { IsInside (G.session to.old) }
    requires named { IsTrue H.tells → AreJobNames names.now }
    requires held { IsTrue H.tells → AreHeld names.now (reading (H.world from.old)) }
    requires no_temp { IsTrue G.tells → IsInNoImage (G.world to.old).now.directory temporary_file }
    ensures from { CallsInside SalvageFault.FromFailed (H.session from.old) (H.session from.new) result }
    ensures to { CallsInside SalvageFault.ToFailed (G.session to.old) (G.session to.new) result }
    ensures looks { IsTrue H.tells → H.world from.new ≡ H.world from.old }
    ensures other { result ≢ Err SalvageFault.NotEmpty }
    ensures no_temp { IsTrue G.tells → OnOk result (IsInNoImage (G.world to.new).now.directory temporary_file) }
    ensures files { IsTrue G.tells → ChangesFiles (LeavesOthers IsCopyName (G.world to.old).now.directory)
        (G.world to.old) (G.world to.new) }
    ensures copies { IsTrue H.tells → IsTrue G.tells
        → EachHasCopies (reading (H.world from.old)) [] (G.world to.old).now.directory
        → OnOk result (EachHasCopies (reading (H.world from.old)) names.now (G.world to.new).now.directory) }
{
    for name in names {
        copy_job(alloc, from, to, name)?;
    }
    Ok(())
}

// Copies the named file, if it is a job's.
fn copy_job<H: Host, G: Host>(
    alloc: Global,
    from: &mut H,
    to: &mut G,
    name: &Name,
) -> Result<(), SalvageFault>
    requires inside_from { IsInside (H.session from.old) }
    requires inside_to { IsInside (G.session to.old) }
    requires held { IsTrue H.tells → IsSome (map.get (reading (H.world from.old)) name.now) }
    requires no_temp { IsTrue G.tells → IsInNoImage (G.world to.old).now.directory temporary_file }
    ensures from { CallsInside SalvageFault.FromFailed (H.session from.old) (H.session from.new) result }
    ensures to { CallsInside SalvageFault.ToFailed (G.session to.old) (G.session to.new) result }
    ensures looks { IsTrue H.tells → H.world from.new ≡ H.world from.old }
    ensures other { result ≢ Err SalvageFault.NotEmpty }
    ensures no_temp { IsTrue G.tells → OnOk result (IsInNoImage (G.world to.new).now.directory temporary_file) }
    ensures files { IsTrue G.tells → ChangesFiles (LeavesOthers (IsCopied name.now) (G.world to.old).now.directory)
        (G.world to.old) (G.world to.new) }
    ensures copied { IsTrue H.tells → IsTrue G.tells → IsSome (job_named name.now) → OnOk result
        (EachHasFile name.now (map.get (reading (H.world from.old)) name.now) (G.world to.new).now.directory) }
{
    if !is_of_job(name.as_bytes()) {
        return Ok(());
    }
    copy(alloc, from, to, name)
}

// Copies the named file, which exists.
fn copy<H: Host, G: Host>(
    alloc: Global,
    from: &mut H,
    to: &mut G,
    name: &Name,
) -> Result<(), SalvageFault>
    requires inside_from { IsInside (H.session from.old) }
    requires inside_to { IsInside (G.session to.old) }
    requires named { IsSome (job_named name.now) }
    requires held { IsTrue H.tells → IsSome (map.get (reading (H.world from.old)) name.now) }
    requires no_temp { IsTrue G.tells → IsInNoImage (G.world to.old).now.directory temporary_file }
    ensures from { CallsInside SalvageFault.FromFailed (H.session from.old) (H.session from.new) result }
    ensures to { CallsInside SalvageFault.ToFailed (G.session to.old) (G.session to.new) result }
    ensures looks { IsTrue H.tells → H.world from.new ≡ H.world from.old }
    ensures other { result ≢ Err SalvageFault.NotEmpty }
    ensures no_temp { IsTrue G.tells → OnOk result (IsInNoImage (G.world to.new).now.directory temporary_file) }
    ensures files { IsTrue G.tells
        → ChangesFiles (LeavesOthers (IsEither temporary_file name.now) (G.world to.old).now.directory)
        (G.world to.old) (G.world to.new) }
    ensures copied { IsTrue H.tells → IsTrue G.tells → OnOk result
        (EachHasFile name.now (map.get (reading (H.world from.old)) name.now) (G.world to.new).now.directory) }
{
    let bytes = bytes_of(alloc, from, name)?;
    place_whole(alloc, to, name, bytes.as_slice())
}
