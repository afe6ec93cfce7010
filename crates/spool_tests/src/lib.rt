//! Tests of the files of a spool and of the store; a compaction stopped at each host call.
//!
//! What is proved of every crash is in the crates of the calls; crashes of a submission, of a removal and of a
//! turn, and what directories show, are scenarios.
#![tactic(auto)]

#[cfg(test)]
mod calls;
#[cfg(test)]
mod crashed_journals;
#[cfg(test)]
mod directories;
#[cfg(test)]
mod headers;
#[cfg(test)]
mod journal_calls;
#[cfg(test)]
mod journals;
#[cfg(test)]
mod noting_host;
#[cfg(test)]
mod replaced_files;
#[cfg(test)]
mod sequence_files;
#[cfg(test)]
mod tables;
