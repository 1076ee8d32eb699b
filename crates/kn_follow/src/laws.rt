//! Laws of replies to LOG and of followers, each of them the contract of a function that does nothing.

ghost use Rattle.std.specs.Prelude.{ℕ, List};
ghost use Rattle.kn_follow.specs.Laws.{SomeReading, OneReading, SomeEnding, OneEnding, TakenInOneWay, FollowersFollow};

/// A text is exactly one reply to LOG, or it departs from the form at exactly one byte.
pub fn one_reading()
    ensures some { SomeReading }
    ensures no_other { (text : List ℕ) → OneReading text }
{}

/// A file is replies that a new replica applies one after the other, which make one history alone, or it has one fault.
pub fn one_ending()
    ensures some { SomeEnding }
    ensures no_other { (text : List ℕ) → OneEnding text }
{}

/// A replica holds the joined updates of the replies that were applied to it. Where these are replies over a history,
/// each asked for with the number of updates held, they are the history's first updates, and each version is the
/// history's.
pub fn followers_follow()
    ensures one_way { TakenInOneWay }
    ensures follow { FollowersFollow }
{}
