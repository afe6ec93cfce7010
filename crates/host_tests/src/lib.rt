//! Tests of the outside in memory and of a witnessed host.
#![tactic(auto)]

#[cfg(test)]
mod input_recorder;
#[cfg(test)]
mod inputs;
#[cfg(test)]
mod passing;
#[cfg(test)]
mod plans;
#[cfg(test)]
mod recorder;
