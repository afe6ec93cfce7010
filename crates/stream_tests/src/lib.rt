//! Tests of the real clock, load, rests and streams.
#![tactic(auto)]

#[cfg(test)]
mod outside;
#[cfg(test)]
mod rests;
#[cfg(test)]
mod streams;
#[cfg(test)]
mod words;
