//! Tests of formats, times and files of records.
#![tactic(auto)]

#[cfg(test)]
mod digits;
#[cfg(test)]
mod job_names;
mod letters;
#[cfg(test)]
mod loads;
#[cfg(test)]
mod names;
mod numbers;
#[cfg(test)]
mod record_files;
#[cfg(test)]
mod scripts;
#[cfg(test)]
mod seconds;
#[cfg(test)]
mod timespecs;
#[cfg(test)]
mod tokens;
#[cfg(test)]
mod touches;

pub use letters::{Letter, Rising};
pub use numbers::{Distinct, Number};
