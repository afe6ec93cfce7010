//! A job's file as it was seen.
ghost use Rattle.std.specs.Prelude.{◌≡◌};
ghost use Rattle.host_calls.specs.Damages.{damage_at};
ghost use Rattle.spool_store.specs.inside.ScannedJobs.{IsUserOrPlace};

use host_calls::{Bytes, Damage, Name};
use job_name::JobName;
use job_script::{header, header_fault};
use spool_model::UserName;

// A job's file, by its name and its first bytes.
#[derive(Drop)]
pub(crate) struct ScannedJob {
    pub(crate) name: Name,
    pub(crate) job: JobName,
    /// As many of its first bytes as a header can have, or all.
    pub(crate) prefix: Bytes,
}

impl ScannedJob {
    // The user of the header that the file begins with, or the place where it leaves the form of one.
    pub(crate) fn user(&self) -> Result<UserName, usize>
        ensures { IsUserOrPlace self.now.prefix result }
    {
        let bytes = self.prefix.as_slice();
        match header(bytes) {
            Some(found) => Ok(found.user),
            None => Err(header_fault(bytes).unwrap_or(0) as usize),
        }
    }

    // The damage at this place of the file.
    pub(crate) fn damage_at(&self, offset: usize) -> Damage
        ensures { result ≡ damage_at self.now.name self.now.prefix offset }
    {
        Damage::at(self.name, self.prefix.as_slice(), offset)
    }
}
