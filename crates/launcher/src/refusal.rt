//! What a tool says that is refused before it begins.
ghost use Rattle.std.specs.Prelude.{◌≡◌};
ghost use Rattle.launcher.specs.ExitCodes.{IsStatus};
ghost use Rattle.listing_text.specs.Cause.{status_of};

use caller_environment::ToolName;
use listing_text::{Cause, Status, cause_line};
use process_input::PROCESS_STATUS;
use std::str;

/// Says why a tool doesn't begin. Answers its status.
pub fn refuse_tool(rt: &HostRuntime, tool: ToolName, cause: Cause) -> Status
    ensures { result ≡ status_of cause }
{
    if let Ok(line) = cause_line(rt.alloc(), tool.as_str(), &cause) {
        write_error_line(rt, line.as_slice());
    }
    Status::of(cause)
}

/// Says that it can't be found out who calls a tool. Answers its status, that of a fault of the spool.
pub fn refuse_unknown_caller(rt: &HostRuntime, tool: ToolName) -> Status
    ensures { IsStatus result }
{
    let name = tool.as_str();
    let _ = eprintln!(rt; "{name}: {PROCESS_STATUS} can not be read");
    Status::of(Cause::FileFault)
}

// (a line that can't be written is lost)
fn write_error_line(rt: &HostRuntime, line: &[u8]) {
    if let Ok(text) = str::from_utf8(line) {
        let _ = rt.eprint(text);
    }
}
