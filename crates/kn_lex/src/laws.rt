//! Laws of the definitions, for the crates above: each is the contract of a function that does nothing.

ghost use Rattle.std.specs.Prelude.{◌≡◌, ◌≤◌, ◌↔◌, ◌⊎◌, ℕ, List, length, Ok, Err, All};
ghost use Rattle.kn_lex.specs.Cutting.{TokenView, Cuts};
ghost use Rattle.kn_lex.specs.Faults.{IsFaultless, IsFirstLexicalFault};
ghost use Rattle.kn_lex.specs.TokenFacts.{IsTokenOf, StandInOrder, begins_line};
ghost use Rattle.kn_lex.specs.Between.{StandApart};
ghost use Rattle.kn_lex.specs.Finished.{AreTokensOf};
ghost use Rattle.kn_lex.specs.Computed.{tokens_or_fault};
ghost use Rattle.kn_lex.specs.Spelling.{IsLiteral};
ghost use Rattle.kn_lex.specs.Literal.{value_behind, inside, literal_value};
ghost use Rattle.kn_lex.specs.Escapes.{EscapeTable};
ghost use Rattle.kn_lex.specs.declared.fault.LexFault.{LexFault};

/// Every text has either tokens that cut it and no fault, or a first fault; never both; and at most one
/// list of tokens cuts it, and it has one first fault at most.
pub fn tokens_or_first_fault()
    ensures some { (text : List ℕ)
        → ((tokens : List TokenView) × Cuts text tokens × IsFaultless text)
        ⊎ ((fault : LexFault) × IsFirstLexicalFault text fault) }
    ensures not_both { (text : List ℕ) (fault : LexFault) → IsFaultless text → IsFirstLexicalFault text fault → ⊥ }
    ensures one_list { (text : List ℕ) (tokens other : List TokenView)
        → Cuts text tokens → Cuts text other → tokens ≡ other }
    ensures one_fault { (text : List ℕ) (fault other : LexFault)
        → IsFirstLexicalFault text fault → IsFirstLexicalFault text other → fault ≡ other }
{}

/// The tokens of a text without faults: each has some bytes, which are those of the text at its span and
/// spell its sort, and no number is too large.
pub fn token_facts()
    ensures { (text : List ℕ) (tokens : List TokenView) → Cuts text tokens → IsFaultless text
        → All (IsTokenOf text) tokens }
{}

/// The tokens that cut a text stand in their order, and `first` tells of each whether a line begins where it does.
pub fn tokens_in_order()
    ensures order { (text : List ℕ) (tokens : List TokenView) → Cuts text tokens → StandInOrder 0 tokens }
    ensures first { (text : List ℕ) (tokens : List TokenView) → Cuts text tokens
        → All (λ token. token.first ≡ begins_line text token.span.start) tokens }
{}

/// Before the first of the tokens that cut a text, between two of them and behind the last stand white space and
/// comments alone, each comment up to the end of its line.
pub fn between_tokens()
    ensures { (text : List ℕ) (tokens : List TokenView) → Cuts text tokens → StandApart text 0 tokens }
{}

/// What is computed of a text is the list of tokens that cuts it where it has no fault, and else its first
/// fault.
pub fn tokens_are_computed()
    ensures tokens { (text : List ℕ) (tokens : List TokenView)
        → (tokens_or_fault text ≡ Ok tokens) ↔ (Cuts text tokens × IsFaultless text) }
    ensures fault { (text : List ℕ) (fault : LexFault)
        → (tokens_or_fault text ≡ Err fault) ↔ IsFirstLexicalFault text fault }
{}

/// A list of tokens cuts a text exactly where each is whole, they stand in order with white space and comments alone
/// around them, and the bodies of comments stand where they are due.
pub fn finished_list()
    ensures { (text : List ℕ) (tokens : List TokenView) → Cuts text tokens ↔ AreTokensOf text tokens }
{}

/// A text has at most as many tokens as bytes.
pub fn no_more_tokens_than_bytes()
    ensures { (text : List ℕ) (tokens : List TokenView) → Cuts text tokens → length tokens ≤ length text }
{}

/// The value of a literal goes by the table of escapes: it has each row of the table, and whatever has each
/// row gives the same value of every literal.
pub fn value_by_table()
    ensures rows { EscapeTable (value_behind 0) }
    ensures only { (value : List ℕ → List ℕ) → EscapeTable value
        → (text : List ℕ) → IsLiteral text → literal_value text ≡ value (inside text) }
{}
