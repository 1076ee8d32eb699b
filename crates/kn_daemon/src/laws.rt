//! Laws of a connection that is being served, of playing, and of what questions tell, each of them the contract of a
//! function that does nothing.

ghost use Rattle.kn_daemon.specs.Laws.{Begins, TakesPiece, AnswersOne, EndsByBye, EndsByBlock, EndsByWrite};
ghost use Rattle.kn_daemon.specs.Laws.{EndsWithoutRequest, EndsByBudget, EndsByMemory, ServedLonger, ServedAlone};
ghost use Rattle.kn_daemon.specs.Laws.{OpeningIsServed};
ghost use Rattle.kn_daemon.specs.Laws.{UnderwayIsSmall, PermittedIsPlayed, AlongIsPlayed, LastQueryIsOne};
ghost use Rattle.kn_daemon.specs.Laws.{FaultRefuses, ReadingGoesOn, FaultRefusesItem, ReadingAdmitsItem};
ghost use Rattle.kn_daemon.specs.Laws.{FaultRefusesCall, CallGoesOn, UpdateIsCommitted, OwnIsUnplaced, HistoryIsPlaced};
ghost use Rattle.kn_daemon.specs.Laws.{LogIsOfPlace, UnplacedIsFree, FewerTakesNoMemory};
ghost use Rattle.kn_daemon.specs.QuestionLaws.{NewsIsOfPlace, WatchIsOfPin, StandingQueryStays};
ghost use Rattle.kn_daemon.specs.QuestionLaws.{WatchTellsTheValue, CriticalTellsTheValue, NewsTellsTheValue};
ghost use Rattle.kn_daemon.specs.QuestionLaws.{CriticalIsOne, CriticalIsSmall, CriticalIsLarge};
ghost use Rattle.kn_daemon.specs.QuestionLaws.{ClosedIsRefused, NamesAreRefused, NoneStandingIsRefused};
ghost use Rattle.kn_daemon.specs.PermissionLaws.{PinIsReported, RetainedPinIsReported};
ghost use Rattle.kn_daemon.specs.PermissionLaws.{OthersAreRefused, SecretMakesAdmin, AdminStays};
ghost use Rattle.kn_daemon.specs.PermissionLaws.{AddedIsAdmitted, BatchIsAdmitted, BatchTellsIds};
ghost use Rattle.kn_daemon.specs.PermissionLaws.{OpenIsNew, StartedNeverFalls, CloseEnds, UnwatchEnds};
ghost use Rattle.kn_daemon.specs.PermissionLaws.{RefusedLookIsNotReported, NothingBehindBye};

/// At first nothing is taken and nothing written.
pub fn serving_begins()
    ensures { Begins }
{}

/// One more piece of bytes is taken.
pub fn serving_takes()
    ensures { TakesPiece }
{}

/// One more request that doesn't end the connection is answered.
pub fn serving_answers()
    ensures { AnswersOne }
{}

/// The connection ends behind its last request: BYE, a refused block, or one whose reply isn't written whole.
pub fn serving_ends()
    ensures bye { EndsByBye }
    ensures block { EndsByBlock }
    ensures write { EndsByWrite }
{}

/// The connection ends between requests: no whole one is held, as many were answered as it has, or memory ran out
/// at first.
pub fn serving_stops()
    ensures dry { EndsWithoutRequest }
    ensures budget { EndsByBudget }
    ensures memory { EndsByMemory }
{}

/// A served connection stays served in a longer valid history.
pub fn served_longer()
    ensures { ServedLonger }
{}

/// What the daemon of one thread permits changes the state as playing does, unless memory ran out: after one
/// request, and along exchanges that stand each after the whole history.
pub fn permitted_is_played()
    ensures request { PermittedIsPlayed }
    ensures along { AlongIsPlayed }
{}

/// A small connection is served: the definition isn't empty.
pub fn opening_is_served()
    ensures { OpeningIsServed }
{}

/// So many requests start at most as many sessions, and add at most as many private assertions to each.
pub fn serving_is_small()
    ensures { UnderwayIsSmall }
{}

/// A caller that is alone is served as by one thread, and the replies tell each place.
pub fn served_alone()
    ensures { ServedAlone }
{}

/// A text with a fault is refused for it, and one with a reading by what its assertion is refused for: as an addition,
/// as an item of a batch, and as a private assertion.
pub fn readings_decide()
    ensures fault { FaultRefuses }
    ensures assertion { ReadingGoesOn }
    ensures item_fault { FaultRefusesItem }
    ensures item { ReadingAdmitsItem }
    ensures call_fault { FaultRefusesCall }
    ensures call { CallGoesOn }
{}

/// Requests mean one query at most: one session as it then stands, and the values that were asked for.
pub fn last_query_is_one()
    ensures { LastQueryIsOne }
{}

/// The update that a permitted reply says was made is the last one of the history.
pub fn update_is_committed()
    ensures { UpdateIsCommitted }
{}

/// A refusal counts as one of its place exactly where the history refuses, and not the state alone.
pub fn refusals_are_placed()
    ensures own { OwnIsUnplaced }
    ensures history { HistoryIsPlaced }
{}

/// A reply that doesn't count as one of its place is permitted at each place.
pub fn unplaced_is_free()
    ensures { UnplacedIsFree }
{}

/// What takes something away, ADMIN, BYE and faults are never answered by `NoMemory`.
pub fn fewer_takes_no_memory()
    ensures { FewerTakesNoMemory }
{}

/// A reply to LOG that hands on updates tells what was asked for, of the history at its place, and changes nothing.
pub fn log_is_of_place()
    ensures { LogIsOfPlace }
{}

/// A NEWS reply tells the version that the standing query then has, and its level there: behind NEWS the version of the
/// place, and behind WATCH the one that the session is pinned to.
pub fn news_is_of_place()
    ensures news { NewsIsOfPlace }
    ensures watch { WatchIsOfPin }
{}

/// What a standing query asks, and over which version, stays as it was until CLOSE, UNWATCH, WATCH or NEWS of its
/// session.
pub fn standing_query_stays()
    ensures { StandingQueryStays }
{}

/// QUERY, WATCH and CRITICAL tell one level in one state. NEWS tells the level that QUERY tells of a session that has
/// what was kept and is pinned to the version of its place.
pub fn questions_tell_one_level()
    ensures watch { WatchTellsTheValue }
    ensures critical { CriticalTellsTheValue }
    ensures news { NewsTellsTheValue }
{}

/// CRITICAL has one answer, which comes where the query has no more nodes than the limit. Where it is refused for its
/// nodes, it has more, and the refusal tells how many.
pub fn critical_is_one()
    ensures one { CriticalIsOne }
    ensures small { CriticalIsSmall }
    ensures large { CriticalIsLarge }
{}

/// What refuses QUERY, WATCH, CRITICAL, NEWS and UNWATCH first: the session isn't open, the names are no compliance
/// values, or there is no standing query.
pub fn questions_are_refused()
    ensures closed { ClosedIsRefused }
    ensures names { NamesAreRefused }
    ensures standing { NoneStandingIsRefused }
{}

/// A reply to PIN tells the version that the session is then pinned to: that of its place, or the retained one that was
/// asked for.
pub fn pins_are_reported()
    ensures newest { PinIsReported }
    ensures retained { RetainedPinIsReported }
{}

/// Only ADMIN with the secret makes a connection an administrator's, and nothing takes that away. Each other one is
/// refused updates and LOG for that.
pub fn secret_makes_administrators()
    ensures others { OthersAreRefused }
    ensures secret { SecretMakesAdmin }
    ensures stays { AdminStays }
{}

/// What a permitted reply says was added is admitted: the text of ADD, and each item of a batch.
pub fn additions_are_admitted()
    ensures text { AddedIsAdmitted }
    ensures items { BatchIsAdmitted }
{}

/// OPEN gives a number that wasn't given before. Behind CLOSE the session isn't open, and behind UNWATCH it has no
/// standing query.
pub fn sessions_begin_and_end()
    ensures begins { OpenIsNew }
    ensures count { StartedNeverFalls }
    ensures ends { CloseEnds }
    ensures standing { UnwatchEnds }
{}

/// A look that the history refuses isn't answered besides.
pub fn refused_looks_are_not_reported()
    ensures { RefusedLookIsNotReported }
{}

/// A reply to BATCH tells the id of its first addition, which is the next one behind the history before it, how many it
/// has, and the version that it makes.
pub fn batches_tell_ids()
    ensures { BatchTellsIds }
{}

/// What stands behind BYE isn't answered.
pub fn nothing_stands_behind_bye()
    ensures { NothingBehindBye }
{}
