//! How calls that make steps join, each law as the contract of a function.
ghost use Rattle.step_runs.specs.MadeLaws.{CallsAreCutOff, CallsMakeTheirSteps, CallsStopAtTheirStep, MadeStepsAreAchieved, MadeStepsAreStopped, NoStepsAreMade, QuestionsMakeNoStep, StartsEnd, StepsAreCutOffAfter, StepsAreMadeAfter, StepsAreStoppedAfter, StoppedStepsAreBegun};

/// Steps that were made one part after another are made, and where a later part was stopped, all are.
pub fn steps_join()
    ensures none { NoStepsAreMade }
    ensures made { StepsAreMadeAfter }
    ensures stopped { StepsAreStoppedAfter }
    ensures ended { MadeStepsAreStopped }
{}

/// A call of the store that starts nothing has made its steps where it succeeds, and where it fails at one step
/// that step may have taken effect.
pub fn calls_make_steps()
    ensures made { CallsMakeTheirSteps }
    ensures stopped { CallsStopAtTheirStep }
{}

/// A call of the store that makes more than one step, and was cut off, leaves a prefix of them after those made before.
pub fn calls_are_cut_off()
    ensures cut_off { CallsAreCutOff }
    ensures later { StepsAreCutOffAfter }
{}

/// A start that the store made is followed by the host's call that takes its script.
pub fn starts_end()
    ensures { StartsEnd }
{}

/// A question to a child makes no step.
pub fn questions_make_no_step()
    ensures { QuestionsMakeNoStep }
{}

/// Steps that were made after a recovery are achieved, and those that were stopped are begun.
pub fn made_steps_are_attempts()
    ensures achieved { MadeStepsAreAchieved }
    ensures begun { StoppedStepsAreBegun }
{}
