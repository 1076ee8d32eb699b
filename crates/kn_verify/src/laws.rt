//! Laws of the definitions: each is the contract of a function that does nothing.
ghost use Rattle.kn_verify.specs.Accepted.{AnswersAreProved, ProvedIsAccepted};
ghost use Rattle.kn_verify.specs.Rejections.{OneReason, NotBoth};

/// Rows that are refused are given one reason, and are no proof, where the ids of the assertions differ.
pub fn one_verdict()
    ensures reason { OneReason }
    ensures not_both { NotBoth }
{}

/// What the daemon answers to a query is a VALUE reply that proves its value, and such a reply is accepted: `verify`
/// refuses it only when out of memory.
pub fn answers_are_accepted()
    ensures proved { AnswersAreProved }
    ensures accepted { ProvedIsAccepted }
{}
