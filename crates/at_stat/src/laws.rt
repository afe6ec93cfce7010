//! What follows of the definitions, as the contracts of functions.
ghost use Rattle.at_stat.specs.Laws.{ScriptsDecideNoStage, StagesExcludeEachOther};

/// The stage of a number is the same on a table and on that table without its scripts.
pub fn scripts_decide_no_stage()
    ensures { ScriptsDecideNoStage }
{}

/// A number is that of a live job, or is done, or the table has nothing of it; and its stage says which.
pub fn stages_exclude_each_other()
    ensures { StagesExcludeEachOther }
{}
