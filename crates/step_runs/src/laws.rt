//! What holds of every table without its scripts and of every run of steps, each law as the contract of a
//! function.
ghost use Rattle.step_runs.specs.Good.{BegunAttemptsKeepGood, RecoveriesKeepGood, RunsKeepGood, StoreCallsKeepGood, UnbegunAttemptsKeepGood};
ghost use Rattle.step_runs.specs.Laws.{CallsAreRuns, EntriesAreWithoutScripts, PrefixesRunAsTheSteps, LegalAsOnTheTable, ListsAsOnTheTable, ListsLegalAsOnTheTable, ListsStepAsOnTheTable, OneStepIsARun, RecoveriesBeginNothing, RunsAfterRecoveries, RunsGoOn, RunsGoThrough, ScriptsAreGone, StepsAsOnTheTable};

/// A step on a table without its scripts is that step on the table.
pub fn tables_without_scripts_step_alike()
    ensures entries { EntriesAreWithoutScripts }
    ensures scripts { ScriptsAreGone }
    ensures legal { LegalAsOnTheTable }
    ensures steps { StepsAsOnTheTable }
    ensures legal_lists { ListsLegalAsOnTheTable }
    ensures step_lists { ListsStepAsOnTheTable }
    ensures lists { ListsAsOnTheTable }
{}

/// Runs go on after runs that were made to their end, and a run of a prefix of steps is a run of the steps.
pub fn runs_go_on()
    ensures on { RunsGoOn }
    ensures through { RunsGoThrough }
    ensures prefixes { PrefixesRunAsTheSteps }
{}

/// A call of the store is a run of its steps.
pub fn calls_are_runs()
    ensures quiet { CallsAreRuns }
    ensures one_step { OneStepIsARun }
{}

/// A recovery begins no step; a run after it is an attempt at its steps.
pub fn runs_stand_after_recoveries()
    ensures alone { RecoveriesBeginNothing }
    ensures begun { RunsAfterRecoveries }
{}

/// A directory of which each image shows a table comes to show no damage, at no moment: not by a recovery, a call of
/// the store, a run of steps, or an attempt at them, as commands and turns make it, whatever comes of these.
pub fn good_directories_stay_good()
    ensures recoveries { RecoveriesKeepGood }
    ensures calls { StoreCallsKeepGood }
    ensures runs { RunsKeepGood }
    ensures unbegun { UnbegunAttemptsKeepGood }
    ensures begun { BegunAttemptsKeepGood }
{}
