//! Laws of replies, each of them the contract of a function that does nothing.

ghost use Rattle.kn_reply.specs.Laws.{LogsAreABeginning, LogsGoOn};

/// The updates of replies to LOG, each for as many as were held before it, are together a beginning of the history.
pub fn logs_are_a_beginning()
    ensures { LogsAreABeginning }
{}

/// A reply to LOG has all updates that are left behind the first `n`, and 16 at most.
pub fn logs_go_on()
    ensures { LogsGoOn }
{}
