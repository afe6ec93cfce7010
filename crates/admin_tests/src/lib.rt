//! Tests of the checker, salvages and accounts.
#![tactic(auto)]

#[cfg(test)]
mod account_lines;
#[cfg(test)]
mod account_sessions;
#[cfg(test)]
mod crashes;
#[cfg(test)]
mod directories;
#[cfg(test)]
mod many;
#[cfg(test)]
mod targets;
