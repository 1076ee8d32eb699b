//! The words of a line, which are separated by one space.

/// A command word.
#[derive(Clone, Copy)]
pub(crate) enum Word {
    Open,
    Close,
    Pin,
    Assert,
    Retract,
    Set,
    SetHex,
    Unset,
    Auth,
    Unauth,
    Clear,
    Query,
    Watch,
    News,
    Unwatch,
    Critical,
    Admin,
    Add,
    Drop,
    Batch,
    Log,
    Bye,
}

impl Word {
    ghost use Rattle.std.specs.Prelude.{ℕ, List, ◌≡◌, Option, MatchOption};
    ghost use Rattle.kn_wire.specs.Lines.{word_text};
    ghost use Rattle.kn_wire.specs.Requests.{Whole, Faulty, line_of_command};
    ghost use Rattle.kn_wire.specs.declared.fault.WireFault.TheVariants.{Command};

    /// The command that a text spells; None where it spells none.
    pub(crate) fn of(text: &[u8]) -> Option<Word>
        ensures { MatchOption result
            ((rest : Option (List ℕ)) → line_of_command text.now rest ≡ Whole (Faulty Command))
            (λ word. text.now ≡ word_text word) }
    {
        if text == b"OPEN".as_slice() {
            Some(Word::Open)
        } else if text == b"CLOSE".as_slice() {
            Some(Word::Close)
        } else if text == b"PIN".as_slice() {
            Some(Word::Pin)
        } else if text == b"ASSERT".as_slice() {
            Some(Word::Assert)
        } else if text == b"RETRACT".as_slice() {
            Some(Word::Retract)
        } else if text == b"SET".as_slice() {
            Some(Word::Set)
        } else if text == b"SETX".as_slice() {
            Some(Word::SetHex)
        } else if text == b"UNSET".as_slice() {
            Some(Word::Unset)
        } else if text == b"AUTH".as_slice() {
            Some(Word::Auth)
        } else if text == b"UNAUTH".as_slice() {
            Some(Word::Unauth)
        } else if text == b"CLEAR".as_slice() {
            Some(Word::Clear)
        } else if text == b"QUERY".as_slice() {
            Some(Word::Query)
        } else if text == b"WATCH".as_slice() {
            Some(Word::Watch)
        } else if text == b"NEWS".as_slice() {
            Some(Word::News)
        } else if text == b"UNWATCH".as_slice() {
            Some(Word::Unwatch)
        } else if text == b"CRITICAL".as_slice() {
            Some(Word::Critical)
        } else if text == b"ADMIN".as_slice() {
            Some(Word::Admin)
        } else if text == b"ADD".as_slice() {
            Some(Word::Add)
        } else if text == b"DROP".as_slice() {
            Some(Word::Drop)
        } else if text == b"BATCH".as_slice() {
            Some(Word::Batch)
        } else if text == b"LOG".as_slice() {
            Some(Word::Log)
        } else if text == b"BYE".as_slice() {
            Some(Word::Bye)
        } else {
            None
        }
    }
}
