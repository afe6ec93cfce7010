//! What holds of every list of legal steps, each law as the contract of a function.
ghost use Rattle.spool_model.specs.Laws.{LastNeverFalls, NoStepLeadsBackToPending, NumbersAreAcceptedOnce, OldNumbersAreNotAccepted, StepsKeepTheTableSound, PrefixesAreLegal};

/// The last number never falls over legal steps.
pub fn last_never_falls()
    ensures { LastNeverFalls }
{}

/// What is pending after a legal step, under a number that had an entry, was pending before it.
pub fn no_step_leads_back_to_pending()
    ensures { NoStepLeadsBackToPending }
{}

/// Where each Accept comes directly after its Draw, a number is accepted at most once, and never
/// one that was drawn before.
pub fn numbers_are_accepted_once()
    ensures once { NumbersAreAcceptedOnce }
    ensures new { OldNumbersAreNotAccepted }
{}

/// Legal steps keep a table sound.
pub fn steps_keep_the_table_sound()
    ensures { StepsKeepTheTableSound }
{}

/// A prefix of legal steps is legal, and the others are legal after it.
pub fn prefixes_are_legal()
    ensures { PrefixesAreLegal }
{}
