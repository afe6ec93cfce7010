//! `at.allow` and `at.deny`: who may use `at`. Whether a user may is a function of the two lists.
#![tactic(auto)]

mod lists;

pub use lists::permits;
