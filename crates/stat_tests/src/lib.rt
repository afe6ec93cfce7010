//! Tests of at_stat over spools in memory: each kind of line, status and refusal; waits; how many calls of
//! the host a session has.
#![tactic(auto)]

#[cfg(test)]
mod calls;
#[cfg(test)]
mod directories;
#[cfg(test)]
mod lines;
#[cfg(test)]
mod refusals;
#[cfg(test)]
mod statuses;
#[cfg(test)]
mod waits;
