//! The laws of the rounds and their least levels, each on a function that does nothing: its clause is the law, and
//! the proof of a function that calls it may cite that. Those without a condition on the equations hold also for ones
//! that no system stands for.
ghost use Rattle.kn_system.specs.Lawful.{LeastLevelsAreLeast, LeastLevelsAreUnique};
ghost use Rattle.kn_system.specs.Lawful.{RoundsAreMonotone, RoundsStayBelow, RoundsMayStop};
ghost use Rattle.kn_system.specs.Lawful.{FixedPointsStay, RoundsAreByPrincipal, RoundsKeepLevels};
ghost use Rattle.kn_system.specs.Lawful.{ProofDeterminesLevel, ProofsHaveOneRowEach, ProofExists, ProofsGoOn};
ghost use Rattle.kn_system.specs.Lawful.{SettlingStarts, SettlingGrants, SettlingGoesDown, SettlingEnds};

/// The least levels are a fixed point of the round, and at or below all levels that no round raises.
pub fn least_levels_are_least()
    ensures { LeastLevelsAreLeast }
{}

/// Levels that are a fixed point, and at or below all levels that no round raises, are the least levels.
pub fn least_levels_are_unique()
    ensures { LeastLevelsAreUnique }
{}

/// A round of higher levels gives higher levels.
pub fn rounds_are_monotone()
    ensures { RoundsAreMonotone }
{}

/// Rounds from the start stay at or below all levels that no round raises.
pub fn rounds_stay_below()
    ensures { RoundsStayBelow }
{}

/// Rounds from the start may stop where one of them changes nothing: the levels are then the least ones.
pub fn rounds_may_stop()
    ensures { RoundsMayStop }
{}

/// Levels that a round leaves stay after any number of rounds.
pub fn fixed_points_stay()
    ensures { FixedPointsStay }
{}

/// What the level of each principal is at first, and after a round.
pub fn rounds_are_by_principal()
    ensures { RoundsAreByPrincipal }
{}

/// Each principal has one level from the start and after each round, and it is below the number of levels.
pub fn rounds_keep_levels()
    ensures { RoundsKeepLevels }
{}

/// The rows of a proof give each principal its least level: no other level can be claimed.
pub fn proof_determines_level()
    ensures { ProofDeterminesLevel }
{}

/// A proof has one row for each principal above the lowest level that is no requester, and no other row.
pub fn proofs_have_one_row_each()
    ensures { ProofsHaveOneRowEach }
{}

/// The policy's least level has a proof.
pub fn proof_exists()
    ensures { ProofExists }
{}

/// A row that may stand after the rows of a proof may follow them.
pub fn proofs_go_on()
    ensures { ProofsGoOn }
{}

/// Settling starts at the top with the levels at first and no row.
pub fn settling_starts()
    ensures { SettlingStarts }
{}

/// While a level is settled, a row that is worth it may give it to its authorizer who has none yet.
pub fn settling_grants()
    ensures { SettlingGrants }
{}

/// Where no row gives the level any more, settling goes on with the next lower one.
pub fn settling_goes_down()
    ensures { SettlingGoesDown }
{}

/// Once all above the lowest level is settled, the rows are a proof.
pub fn settling_ends()
    ensures { SettlingEnds }
{}
