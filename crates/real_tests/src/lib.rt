//! Tests of each program on real directories, compared with a model.
#![tactic(auto)]

mod asked;
#[cfg(test)]
mod beside;
#[cfg(test)]
mod commands;
#[cfg(test)]
mod environment;
mod keeping;
#[cfg(test)]
mod runs;
#[cfg(test)]
mod salvages;
#[cfg(test)]
mod sessions;
#[cfg(test)]
mod spools;
mod step;
mod tally;
