//! A law of scripts: the contract of a function that does nothing.
ghost use Rattle.kn_play.specs.LastQueries.{OneQueryOfScript};

/// A script means one query at most: one session as it then stands, and the values that were asked for.
pub fn last_query_is_one()
    ensures { OneQueryOfScript }
{}
