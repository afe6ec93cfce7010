//! Tests of caller_environment, tool_help, system_calls and caller_rules.
#![tactic(auto)]

#[cfg(test)]
mod hints;
#[cfg(test)]
mod locks;
#[cfg(test)]
mod permissions;
#[cfg(test)]
mod places;
#[cfg(test)]
mod planned_system;
#[cfg(test)]
mod real_system;
#[cfg(test)]
mod spools;
#[cfg(test)]
mod texts;
#[cfg(test)]
mod words;
