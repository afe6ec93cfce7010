//! What holds of each value that was made in memory, by what it was made as. Each law is the contract of a function.
ghost use Rattle.memory_host.specs.Laws.{ChildrenAnswerAsPlanned, FaultsArePlanned, InputsHaveTheirContent, InputsKeepToContent, QuietHostsHaveNoFault, ReadingsKeepToLists, SinksKeepToPuts, SpellingsTellPlans};

/// What a host was made as gives its plan and the fuses that its reboots have set.
pub fn spellings_tell_plans()
    ensures { SpellingsTellPlans }
{}

/// Where nothing is planned to fail, nothing fails.
pub fn quiet_hosts_have_no_fault()
    ensures { QuietHostsHaveNoFault }
{}

/// Without a fuse there are at most as many faults as the plan has entries.
pub fn faults_are_planned()
    ensures { FaultsArePlanned }
{}

/// Children answer by the plan's list of children.
pub fn children_answer_as_planned()
    ensures { ChildrenAnswerAsPlanned }
{}

/// Readings answer along their two lists.
pub fn readings_keep_to_lists()
    ensures { ReadingsKeepToLists }
{}

/// Inputs keep the content that they were made with. They fail where they were made to, or where there is no
/// file, and nowhere else.
pub fn inputs_keep_to_content()
    ensures content { InputsHaveTheirContent }
    ensures faults { InputsKeepToContent }
{}

/// A sink fails at the put that it was made to fail at, and nowhere else.
pub fn sinks_keep_to_puts()
    ensures { SinksKeepToPuts }
{}
