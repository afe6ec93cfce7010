//! What follows from how a command ends, each law as the contract of a function.
ghost use Rattle.command_rules.specs.Laws.{CrashesLeavePrefixes, RefusalsChangeNothing, WhatIsAllowedIsDone, FinishedWorkIsKept, WhatIsRefusedHasNoStep};
ghost use Rattle.tool_output.specs.Sinks.{SaysBy};

/// What is allowed and meets no fault of the outside is done, or runs out of memory.
pub fn what_is_allowed_is_done(tool: &str)
    ensures { WhatIsAllowedIsDone (SaysBy tool.now) }
{}

/// A refusal changes nothing, and what is refused has no step, whatever is answered.
pub fn refusals_change_nothing(tool: &str)
    ensures shown { RefusalsChangeNothing (SaysBy tool.now) }
    ensures steps { WhatIsRefusedHasNoStep (SaysBy tool.now) }
{}

/// A crash at any moment leaves what was shown before, or the table after a prefix of the steps.
pub fn crashes_leave_prefixes(tool: &str)
    ensures { CrashesLeavePrefixes (SaysBy tool.now) }
{}

/// What is done is in every image.
pub fn finished_work_is_kept(tool: &str)
    ensures { FinishedWorkIsKept (SaysBy tool.now) }
{}
