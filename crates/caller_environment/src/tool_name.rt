//! The tools by name.
ghost use Rattle.std.specs.Prelude.{◌≡◌};
ghost use Rattle.caller_environment.specs.Tools.{name_of_tool, program_named, tool_named};

/// One of the tools.
#[derive(Clone, Copy, Debug, PartialEq, Eq)]
pub enum ToolName {
    At,
    Batch,
    Atq,
    Atrm,
    Atd,
    Atday,
    Atpost,
    Atcron,
    Ataccount,
    Atcheck,
    Atstat,
}

impl ToolName {
    /// The name by which it is called.
    pub fn as_str(&self) -> &'static str
        ensures { result.now ≡ name_of_tool self.now }
    {
        match self {
            ToolName::At => "at",
            ToolName::Batch => "batch",
            ToolName::Atq => "atq",
            ToolName::Atrm => "atrm",
            ToolName::Atd => "atd",
            ToolName::Atday => "atday",
            ToolName::Atpost => "atpost",
            ToolName::Atcron => "atcron",
            ToolName::Ataccount => "ataccount",
            ToolName::Atcheck => "atcheck",
            ToolName::Atstat => "atstat",
        }
    }
}

/// The tool of this name.
#[tactic(auto, unfolding(crate::specs::Tools::tool_named))]
pub(crate) fn tool_named(name: &[u8]) -> Option<ToolName>
    ensures { result ≡ tool_named name.now }
{
    if name == b"at".as_slice() {
        Some(ToolName::At)
    } else if name == b"batch".as_slice() {
        Some(ToolName::Batch)
    } else if name == b"atq".as_slice() {
        Some(ToolName::Atq)
    } else if name == b"atrm".as_slice() {
        Some(ToolName::Atrm)
    } else if name == b"atd".as_slice() {
        Some(ToolName::Atd)
    } else if name == b"atday".as_slice() {
        Some(ToolName::Atday)
    } else {
        program_named(name)
    }
}

// The tool of this name that is a program with a directory as its first word, or the one that shows what became of jobs.
#[tactic(auto, unfolding(crate::specs::Tools::program_named))]
fn program_named(name: &[u8]) -> Option<ToolName>
    ensures { result ≡ program_named name.now }
{
    if name == b"atpost".as_slice() {
        Some(ToolName::Atpost)
    } else if name == b"atcron".as_slice() {
        Some(ToolName::Atcron)
    } else if name == b"ataccount".as_slice() {
        Some(ToolName::Ataccount)
    } else if name == b"atcheck".as_slice() {
        Some(ToolName::Atcheck)
    } else if name == b"atstat".as_slice() {
        Some(ToolName::Atstat)
    } else {
        None
    }
}
