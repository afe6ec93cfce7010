//! What holds of every name of a job's file.
ghost use Rattle.job_name.specs.Laws.{JobsAreNamed, JobsHaveOneName, NamesHaveOneJob};

/// Names and jobs are one to one, and the job of a name, as it computes, is the one that it spells.
pub fn names_are_of_one_job()
    ensures named { JobsAreNamed }
    ensures names { JobsHaveOneName }
    ensures jobs { NamesHaveOneJob }
{}
