//! A law of the texts of replies: the contract of a function that does nothing.
ghost use Rattle.kn_reply_reader.specs.Apart.{RepliesAreApart};

/// No reply's text begins another's, so that what is left behind the text of one doesn't depend on which it is.
pub fn replies_are_apart()
    ensures { RepliesAreApart }
{}
