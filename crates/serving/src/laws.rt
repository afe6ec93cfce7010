//! What follows of serving, as the contract of a function.
ghost use Rattle.serving.specs.Examples.{SmallServings};
ghost use Rattle.serving.specs.Laws.{ServingIsDone};

/// Where the outside doesn't fail, serving is done, or its turns are used up while children are left, or it runs out of
/// memory.
pub fn serving_ends_well()
    ensures { ServingIsDone }
{}

/// Small servings, written down: two turns each, and the rest between them.
pub fn small_servings()
    ensures { SmallServings }
{}
