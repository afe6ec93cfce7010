//! Tests of notes, notices, sessions of mail, trims and the program.
//!
//! Other examples of sessions are scenarios.
#![tactic(auto)]

#[cfg(test)]
mod crashes;
#[cfg(test)]
mod directories;
#[cfg(test)]
mod lines;
#[cfg(test)]
mod many;
#[cfg(test)]
mod notices;
#[cfg(test)]
mod noting;
#[cfg(test)]
mod placing;
#[cfg(test)]
mod program;
#[cfg(test)]
mod trims;
