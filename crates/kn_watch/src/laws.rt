//! What may change between two refreshes, each the contract of a function that does nothing.
ghost use Rattle.kn_watch.specs.Watched.{CeilingsMayChange, RowsMayBeAdded};

/// Levels that were found for a system may be refreshed after a ceiling of it changed.
pub fn ceilings_may_change()
    ensures { CeilingsMayChange }
{}

/// Levels that were found for a system may be refreshed after a row was added to it, and principals that are no
/// requesters.
pub fn rows_may_be_added()
    ensures { RowsMayBeAdded }
{}
