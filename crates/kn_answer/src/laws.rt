//! Laws of the systems of queries, each of them the contract of a function that does nothing.

ghost use Rattle.kn_answer.specs.Based.{BasesHaveNodes, BasesStateQueries};
ghost use Rattle.kn_answer.specs.Laws.{LocatedProofs};
ghost use Rattle.kn_answer.specs.Removed.{RemovedAreWorthless};

/// Where the ids of the assertions differ, located rows prove a level in the system of a query exactly where the rows
/// by names prove it of the query.
pub fn located_proofs()
    ensures { LocatedProofs }
{}

/// An assertion whose conditions are worth nothing may as well not be there.
pub fn removed_are_worthless()
    ensures { RemovedAreWorthless }
{}

/// A base is the system of each query over its assertions, with the query's requesters and ceilings.
pub fn bases_state_queries()
    ensures { BasesStateQueries }
{}

/// A base has as many nodes as the formulas of its assertions, whatever is asked.
pub fn bases_have_nodes()
    ensures { BasesHaveNodes }
{}
