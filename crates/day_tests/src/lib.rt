//! Tests of simulated runs with each call failing and each lock taken; many jobs, long commands.
#![tactic(auto)]

#[cfg(test)]
mod ann;
#[cfg(test)]
mod commands;
#[cfg(test)]
mod counting_inputs;
#[cfg(test)]
mod crowd;
#[cfg(test)]
mod directories;
#[cfg(test)]
mod made;
#[cfg(test)]
mod memory;
#[cfg(test)]
mod texts;
#[cfg(test)]
mod trials;
#[cfg(test)]
mod trials_of_locks;
#[cfg(test)]
mod tried_days;
#[cfg(test)]
mod tried_rules;
#[cfg(test)]
mod umasks;
