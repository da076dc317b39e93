//! What is so of titles, whatever comes in: the law is the contract of a function with nothing to do.

ghost use Rattle.activities.specs.Invariant.{IsInvariant};
ghost use Rattle.library.specs.Titles.{title_reactions, IsCovered};

/// No more copies are set aside than are here, whatever comes in: so none is promised to two.
pub fn what_is_set_aside_is_here()
    ensures { IsInvariant title_reactions IsCovered }
{}
