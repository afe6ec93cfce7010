//! Tests of the real host: directories, locks, children.
//!
//! What the clauses of its calls say is proved in unix_host; what a directory contains, and what the system is called
//! for, is tested here.
#![tactic(auto)]

#[cfg(test)]
mod calls;
#[cfg(test)]
mod directories;
#[cfg(test)]
mod jobs;
#[cfg(test)]
mod kept;
#[cfg(test)]
mod locks;
#[cfg(test)]
mod refusing;
#[cfg(test)]
mod spools;
#[cfg(test)]
mod syncs;
#[cfg(test)]
mod waits;
#[cfg(test)]
mod words;
