//! Tests of the table, queues, lists, minutes, lines and words.
#![tactic(auto)]

#[cfg(test)]
mod lines;
#[cfg(test)]
mod lists;
#[cfg(test)]
mod minutes;
#[cfg(test)]
mod plain;
#[cfg(test)]
mod queues;
#[cfg(test)]
mod table;
#[cfg(test)]
mod words;
