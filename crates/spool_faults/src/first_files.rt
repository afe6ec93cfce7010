//! The files of jobs that are taken: of each number the first that begins with a header.
ghost use Rattle.std.specs.Prelude.{◌++◌, [], ◌∷◌, List, IfOk, OnOk};
ghost use Rattle.std.specs.List.{filter};
ghost use Rattle.spool_faults.specs.Faults.{has_header};
ghost use Rattle.spool_faults.specs.inside.FoundFiles.{AreFirstFiles, file_found, files_found};
ghost use Rattle.spool_shows.specs.JobFiles.{JobFile};

use crate::found_file::FoundFile;
use host_calls::Name;
use job_name::JobName;
use std::alloc::{AllocError, Global};
use std::collections::BTreeMap;

// The first file of a number, by its name.
#[derive(Clone, Copy)]
pub(crate) struct FirstFile {
    pub(crate) name: Name,
    pub(crate) job: JobName,
}

// The first file of each number.
#[derive(Drop)]
pub(crate) struct FirstFiles {
    // The queue of each number's file.
    pub(crate) queues: BTreeMap<u32, u8>,
    // The files in byte order of their names.
    pub(crate) files: Vec<FirstFile>,
}

// Of each number the first file that begins with a header.
pub(crate) fn first_files(alloc: Global, files: &[FoundFile]) -> Result<FirstFiles, AllocError>
    ensures { IfOk result (AreFirstFiles (filter has_header (files_found files.now))) }
{
    let mut firsts = FirstFiles {
        queues: BTreeMap::new(alloc),
        files: Vec::new(alloc),
    };
    for file in files {
        add_first(&mut firsts, file)?;
    }
    Ok(firsts)
}

fn add_first(firsts: &mut FirstFiles, file: &FoundFile) -> Result<(), AllocError>
    ensures { OnOk result ((files : List JobFile) → AreFirstFiles files firsts.old
        → AreFirstFiles (files ++ filter has_header (file_found file.now ∷ [])) firsts.new) }
{
    let number = file.job.number;
    if file.header_place().is_some() || firsts.queues.contains_key(&number) {
        return Ok(());
    }
    firsts.queues.insert(number, file.job.queue)?;
    firsts.files.push(FirstFile {
        name: file.name,
        job: file.job,
    })?;
    Ok(())
}
