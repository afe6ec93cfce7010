//! Tests of crontabs: texts, days, commands, marks, sessions, program.
#![tactic(auto)]

#[cfg(test)]
mod callers;
#[cfg(test)]
mod checks;
#[cfg(test)]
mod commands;
#[cfg(test)]
mod crontabs;
#[cfg(test)]
mod fuses;
#[cfg(test)]
mod lines;
#[cfg(test)]
mod listing;
#[cfg(test)]
mod many;
#[cfg(test)]
mod marks;
#[cfg(test)]
mod minutes;
#[cfg(test)]
mod outside;
#[cfg(test)]
mod program;
#[cfg(test)]
mod readings;
#[cfg(test)]
mod schedule;
