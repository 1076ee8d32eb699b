//! Laws of the definitions, each of them the contract of a function that does nothing.

ghost use Rattle.kn_laws.specs.Laws.{LeastLevelsAreLeast, PlainLevelsAreLeast, PlainLevelIsThePolicys};
ghost use Rattle.kn_laws.specs.Laws.{EveryQueryHasALevel, EveryQueryHasOneLevel, LeastLevelsAreWithin};
ghost use Rattle.kn_laws.specs.Laws.{ProofDeterminesLevel, EveryQueryHasAProof};
ghost use Rattle.kn_laws.specs.Laws.{RowsStayAProof, UnnamedIsNotCritical, CriticalIsOne};
ghost use Rattle.kn_laws.specs.Laws.{FewerLowerAll, FewerNeverRaise};
ghost use Rattle.kn_laws.specs.Unaffected.{UnaffectedKeepLevel};

/// As many rounds as a query has principals times the top, from the requesters at the top and all others at 0, give the
/// least levels.
pub fn least_levels_are_least()
    ensures { LeastLevelsAreLeast }
{}

/// The table of `kn_meaning`'s plain program `least_levels`, which has the requesters and the authorizers alone and
/// takes as many rounds as it has entries times the top, tells the least levels of all principals, and so the policy's
/// level.
pub fn plain_levels_are_least()
    ensures least { PlainLevelsAreLeast }
    ensures policy { PlainLevelIsThePolicys }
{}

/// Each query gives the policy one level, and it is one of the query's compliance values.
pub fn every_query_has_a_level()
    ensures some { EveryQueryHasALevel }
    ensures one { EveryQueryHasOneLevel }
    ensures within { LeastLevelsAreWithin }
{}

/// The rows of a proof give each principal its least level, so no other level of the policy has a proof.
pub fn proof_determines_level()
    ensures { ProofDeterminesLevel }
{}

/// Each query has a proof, and so the policy's least level has one.
pub fn every_query_has_a_proof()
    ensures { EveryQueryHasAProof }
{}

/// Rows that don't name an assertion prove the same level without it, so it isn't critical; and those that are critical
/// are one list.
pub fn unnamed_is_not_critical()
    ensures rows { RowsStayAProof }
    ensures uncritical { UnnamedIsNotCritical }
    ensures one { CriticalIsOne }
{}

/// Where assertions are taken away, no principal's least level rises, and so the policy's doesn't.
pub fn fewer_never_raise()
    ensures all { FewerLowerAll }
    ensures policy { FewerNeverRaise }
{}

/// Where assertions come and go, the policy keeps its level if it isn't in a set of principals that has their
/// authorizers and, with a principal, the authorizers of all assertions that name it.
pub fn unaffected_keep_level()
    ensures { UnaffectedKeepLevel }
{}
