//! Tests of simulated runs with mail and crontabs.
#![tactic(auto)]

#[cfg(test)]
mod days;
#[cfg(test)]
mod events;
#[cfg(test)]
mod fuses;
#[cfg(test)]
mod told;
