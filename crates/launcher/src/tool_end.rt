//! How a tool ended.
use crate::tool_run::ToolRun;
use caller_rules::ToolSpool;
use process_input::Invoker;
use witnessed_host::{InputWitness, Witness};

/// By what a tool ended.
#[derive(Drop)]
pub enum HowEnded {
    /// It was asked what it prints of itself.
    Described,
    /// It can't be found out who calls it.
    UnknownCaller,
    /// Its program ran with no spool.
    Apart,
    /// Its words, or the name of its caller, refuse it.
    Refused,
    /// It was launched for this caller, on this spool, and this is whether its words submit jobs.
    Launched(Invoker, ToolSpool, bool),
}

/// A tool that ended, and by what.
#[derive(Drop)]
pub struct ToolEnd<W: Witness + Drop, V: InputWitness + Drop> {
    pub how: HowEnded,
    pub run: ToolRun<W, V>,
}
