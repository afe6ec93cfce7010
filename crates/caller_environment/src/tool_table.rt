//! What differs by the tool, in one table.
ghost use Rattle.std.specs.Prelude.{◌≡◌};
ghost use Rattle.caller_environment.specs.ToolTable.{IsToolRow};

use crate::tool_name::ToolName;

/// Where the spool of a tool comes from.
#[derive(Clone, Copy, Debug, PartialEq, Eq)]
pub enum SpoolSource {
    /// It is the caller's.
    Caller,
    /// The first word names it, or else it is the caller's.
    FirstWord,
    /// The tool has none.
    Nothing,
}

/// Which words of a tool submit jobs.
#[derive(Clone, Copy, Debug, PartialEq, Eq)]
pub enum Submits {
    Never,
    /// Those that name a time.
    ByWords,
    Always,
}

/// What differs by the tool.
#[derive(Clone, Copy, Debug)]
pub struct ToolRow {
    pub tool: ToolName,
    pub spool: SpoolSource,
    /// Whether the lists of the machine say who may call it.
    pub consults_lists: bool,
    pub submits: Submits,
}

/// The tools, each once.
pub const TOOLS: [ToolRow; 11] = [
    ToolRow {
        tool: ToolName::At,
        spool: SpoolSource::Caller,
        consults_lists: true,
        submits: Submits::ByWords,
    },
    ToolRow {
        tool: ToolName::Batch,
        spool: SpoolSource::Caller,
        consults_lists: true,
        submits: Submits::ByWords,
    },
    ToolRow {
        tool: ToolName::Atq,
        spool: SpoolSource::Caller,
        consults_lists: true,
        submits: Submits::Never,
    },
    ToolRow {
        tool: ToolName::Atrm,
        spool: SpoolSource::Caller,
        consults_lists: true,
        submits: Submits::Never,
    },
    ToolRow {
        tool: ToolName::Atd,
        spool: SpoolSource::Caller,
        consults_lists: false,
        submits: Submits::Never,
    },
    ToolRow {
        tool: ToolName::Atday,
        spool: SpoolSource::Nothing,
        consults_lists: false,
        submits: Submits::Never,
    },
    ToolRow {
        tool: ToolName::Atpost,
        spool: SpoolSource::FirstWord,
        consults_lists: false,
        submits: Submits::Never,
    },
    ToolRow {
        tool: ToolName::Atcron,
        spool: SpoolSource::FirstWord,
        consults_lists: false,
        submits: Submits::Always,
    },
    ToolRow {
        tool: ToolName::Ataccount,
        spool: SpoolSource::FirstWord,
        consults_lists: false,
        submits: Submits::Never,
    },
    ToolRow {
        tool: ToolName::Atcheck,
        spool: SpoolSource::FirstWord,
        consults_lists: false,
        submits: Submits::Never,
    },
    ToolRow {
        tool: ToolName::Atstat,
        spool: SpoolSource::Caller,
        consults_lists: true,
        submits: Submits::Never,
    },
];

/// The row of a tool.
pub fn row_of_tool(tool: ToolName) -> ToolRow
    ensures tool { result.tool ≡ tool }
    /// No other row has its name.
    ensures alone { IsToolRow tool result }
{
    TOOLS[tool as usize]
}
