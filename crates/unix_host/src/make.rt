//! The two ways in which the host of a spool directory is made.
ghost use Rattle.std.specs.Prelude.{◌≡◌, [], None, IfOk};
ghost use Rattle.host_calls.specs.Session.{IsOutside};
ghost use Rattle.unix_host.specs.UnixHost.{unix_session};

use crate::absent::Absent;
use crate::host::UnixHost;
use crate::naming::Naming;
use crate::waits::Waits;
use host_calls::Text;
use std::alloc::{AllocError, Global};
use std::fs::File;
use std::process::Processes;
use std::rt::Runtime;
use witnessed_host::FaultCounts;

impl<R: Runtime<File = File> + Processes> UnixHost<R> {
    /// The host of this directory, which a session makes where it is absent. It touches no file.
    pub fn make(rt: R, alloc: Global, spool: Text) -> Result<UnixHost<R>, AllocError>
        ensures outside { IfOk result (λ made. IsOutside (unix_session made)) }
        ensures children { IfOk result (λ made. (unix_session made).children ≡ []) }
        ensures spool { IfOk result (λ made. made.spool ≡ spool) }
        ensures absent { IfOk result (λ made. made.absent ≡ Absent.Makes) }
        ensures waits { IfOk result (λ made. made.waits ≡ Waits.Asking) }
        ensures counts { IfOk result (λ made. made.counts ≡ record { files = 0; starts = 0; taken = 0 }) }
    {
        Ok(host_of(rt, alloc, spool, Absent::Makes))
    }

    /// The host of a directory that exists: a session fails where it is absent, and makes nothing. It touches no
    /// file.
    pub fn existing(rt: R, alloc: Global, spool: Text) -> Result<UnixHost<R>, AllocError>
        ensures outside { IfOk result (λ made. IsOutside (unix_session made)) }
        ensures children { IfOk result (λ made. (unix_session made).children ≡ []) }
        ensures spool { IfOk result (λ made. made.spool ≡ spool) }
        ensures absent { IfOk result (λ made. made.absent ≡ Absent.Fails) }
        ensures waits { IfOk result (λ made. made.waits ≡ Waits.Asking) }
        ensures counts { IfOk result (λ made. made.counts ≡ record { files = 0; starts = 0; taken = 0 }) }
    {
        Ok(host_of(rt, alloc, spool, Absent::Fails))
    }

    /// The same host, whose listings keep so many first bytes of each file.
    pub fn keeping(self, head: usize) -> UnixHost<R>
        ensures { result ≡ record self { head = head } }
    {
        UnixHost { head, ..self }
    }

    /// The same host, whose first session makes the directory the current directory of the process.
    pub fn moving(self) -> UnixHost<R>
        ensures naming { result.naming ≡ Naming.Current }
        ensures others { record result { naming = self.naming } ≡ self }
    {
        UnixHost {
            naming: Naming::Current,
            ..self
        }
    }

    /// The same host, whose sessions wait so for a lock that is taken.
    pub fn waiting(self, waits: Waits) -> UnixHost<R>
        ensures waits { result.waits ≡ waits }
        ensures others { record result { waits = self.waits } ≡ self }
    {
        UnixHost { waits, ..self }
    }
}

fn host_of<R: Runtime<File = File> + Processes>(
    rt: R,
    alloc: Global,
    spool: Text,
    absent: Absent,
) -> UnixHost<R>
    ensures directory { result.directory ≡ None }
    ensures kids { result.kids.items ≡ [] }
    ensures spool { result.spool ≡ spool }
    ensures absent { result.absent ≡ absent }
    ensures waits { result.waits ≡ Waits.Asking }
    ensures counts { result.counts ≡ record { files = 0; starts = 0; taken = 0 } }
{
    UnixHost {
        rt,
        spool,
        absent,
        naming: Naming::Whole,
        waits: Waits::Asking,
        head: 0,
        directory: None,
        kids: Vec::new(alloc),
        counts: FaultCounts {
            files: 0,
            starts: 0,
            taken: 0,
        },
    }
}
