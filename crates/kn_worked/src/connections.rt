//! Worked examples of connections. The functions have no body: their clauses are what they say.

ghost use Rattle.kn_worked.specs.Connections.{AliceIsAnswered, AliceIsAnsweredSo, BobIsAnswered};
ghost use Rattle.kn_worked.specs.Connections.{BatchIsRefused, BatchIsMade, VersionIsPinned, UpdateIsHandedOn};
ghost use Rattle.kn_worked.specs.Connections.{BatchesAreSeen};
ghost use Rattle.kn_worked.specs.Connections.{StandingQueryIsTold, RequesterIsKept, BothAreCritical, NeitherIsCritical};

/// A session that asks whether a principal may is answered with the value and the row that proves it, and by no other
/// bytes.
pub fn question_is_answered()
    ensures some { AliceIsAnswered }
    ensures one { AliceIsAnsweredSo }
{}

/// An administrator adds a credential. A session's answer changes with it only where the session pins the new version.
pub fn addition_counts_when_pinned()
    ensures { BobIsAnswered }
{}

/// A batch is one update of all its items, or none where the history refuses an item: the first such one is named.
pub fn batch_is_one_update()
    ensures refused { BatchIsRefused }
    ensures made { BatchIsMade }
{}

/// A session is pinned to an earlier version by its number. Where that version isn't there, the newest one is named.
pub fn version_is_pinned()
    ensures { VersionIsPinned }
{}

/// The updates behind the first ones, by their number, are handed on. Where there are fewer, the newest version is
/// named.
pub fn update_is_handed_on()
    ensures { UpdateIsHandedOn }
{}

/// What two batches made is seen by the news of a standing query and in the log, and not by a query at an earlier
/// version.
pub fn batches_are_seen()
    ensures { BatchesAreSeen }
{}

/// A standing query is answered over each newer version, and asks with what it was kept with.
pub fn standing_query_is_reported()
    ensures versions { StandingQueryIsTold }
    ensures kept { RequesterIsKept }
{}

/// The assertions without which the level would be lower are named, shared ones and a session's own. Where two say the
/// same, neither is.
pub fn critical_assertions_are_reported()
    ensures both { BothAreCritical }
    ensures neither { NeitherIsCritical }
{}
