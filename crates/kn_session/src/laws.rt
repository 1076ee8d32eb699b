//! What holds of the definitions. Each law is the contract of a function that does nothing, and a crate above gets it
//! by a call.
ghost use Rattle.kn_session.specs.Laws.{TextsAreShort, AllIdsDiffer, PrivatesAreRead};
ghost use Rattle.kn_session.specs.Laws.{CallsKeepStanding, OthersKeepStanding, PinsKeepStanding, MovesVersionAlone};

/// What a session asks with, from the version that it is pinned to and from its own assertions, meets the conditions of
/// a query: the texts are short enough together, no two ids are equal, and each assertion is the reading of its text.
pub fn assertions_of_a_session()
    ensures bytes { TextsAreShort }
    ensures ids { AllIdsDiffer }
    ensures read { PrivatesAreRead }
{}

/// A standing query stays as it was under each call but those that close its session or end it, whatever becomes of the
/// session's own assertions, attributes, requesters and version. Moved to another version, it stays as it was but for
/// that.
pub fn standing_query_stays()
    ensures calls { CallsKeepStanding }
    ensures others { OthersKeepStanding }
    ensures pins { PinsKeepStanding }
    ensures moves { MovesVersionAlone }
{}
