//! Laws of transcripts: each is the contract of a function that does nothing.
ghost use Rattle.kn_transcript.specs.Laws.{OneVerdict, RunsAreFollowed, ValuesAreLeast};
ghost use Rattle.kn_transcript.specs.Laws.{VersionsAreReported};

/// What a daemon of one thread replies to a connection that is alone is what a transcript may have. And each reply of
/// a transcript that gives a value gives `POLICY`'s level in the least fixed point of what the session asks then, over
/// the version that the session is pinned to, which is one of the history that the replies before it tell.
pub fn transcripts()
    ensures runs { RunsAreFollowed }
    ensures values { ValuesAreLeast }
    ensures versions { VersionsAreReported }
{}

/// A transcript has at most one verdict: it is accepted with one pair of numbers, or it has one fault. So `verify`
/// refuses none that is accepted, unless memory runs out.
pub fn one_verdict()
    ensures { OneVerdict }
{}
