//! A tool that ended.
use listing_text::Status;
use real_programs::{ProgramExit, RealSystem};
use witnessed_host::{InputWitness, Witness};

/// The exit of a tool, and the system over which its program ran, if it did.
#[derive(Drop)]
pub struct ToolRun<W: Witness + Drop, V: InputWitness + Drop> {
    pub exit: ProgramExit,
    pub system: Option<RealSystem<W, V>>,
}

impl<W: Witness + Drop, V: InputWitness + Drop> ToolRun<W, V> {
    ghost use Rattle.std.specs.Prelude.{◌≡◌, None};
    ghost use Rattle.real_programs.specs.ProgramRuns.{exit_of};

    /// A tool whose program did not run.
    pub fn unrun(status: Status) -> ToolRun<W, V>
        ensures exit { result.exit ≡ exit_of status }
        ensures system { result.system ≡ None }
    {
        ToolRun {
            exit: ProgramExit::of(status),
            system: None,
        }
    }
}
