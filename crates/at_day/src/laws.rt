//! What follows of a simulated run, each law as the contract of a function.
ghost use Rattle.at_day.specs.Laws.{AcknowledgedEventsAreWhole, MadeDaysAreReported};

/// A command with status 0, and a turn that was done, made all of its steps: each image shows the table after them.
pub fn acknowledged_events_are_whole()
    ensures { AcknowledgedEventsAreWhole }
{}

/// Where the output doesn't fail, a day that is requested is reported, or no memory is found for it.
pub fn made_days_are_reported()
    ensures { MadeDaysAreReported }
{}
