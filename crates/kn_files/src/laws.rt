//! Laws of the definitions, for the crates above: each is the contract of a function that does nothing.

ghost use Rattle.std.specs.Prelude.{◌≡◌, ◌⊎◌, ◌||◌, ◌==◌, ℕ, List, [], ◌∷◌, ◌++◌};
ghost use Rattle.std.specs.Prelude.{length, take, All, Contains, fold, true, false, not};
ghost use Rattle.std.specs.List.{list_all};
ghost use Rattle.kn_lex.specs.Spelling.{is_continuation, Item, is_item, items_bytes, IsLiteral};
ghost use Rattle.kn_lex.specs.Cutting.{TokenView, Cuts, is_comment_label};
ghost use Rattle.kn_lex.specs.Faults.{IsFaultless};
ghost use Rattle.kn_base.specs.declared.span.Span.{Span};
ghost use Rattle.kn_files.specs.Lines.{Line, lines_of, are_lines, bytes_of_lines, after_byte, after_line};
ghost use Rattle.kn_files.specs.Lines.{is_literal, is_cut};
ghost use Rattle.kn_files.specs.Literals.{leaves_out};
ghost use Rattle.kn_files.specs.Paragraphs.{lines_in, IsParagraph, IsOfParagraph, IsOfLines};
ghost use Rattle.kn_files.specs.Paragraphs.{HasLine, LacksLine, AreOfComment};
ghost use Rattle.kn_files.specs.Pieces.{is_assertion, text_of, span_of, spans_of, IsWithin, StandApart, HasWholeLines};
ghost use Rattle.kn_files.specs.declared.within.Within.{Within};

/// The lines of a file are those that make it up, and there is one way only to cut it into lines.
#[tactic(auto, using(crate::proofs::Splitting::line_facts))]
pub fn lines_of_file()
    ensures bytes_of_lines { (file : List ℕ) → bytes_of_lines (lines_of file) ≡ file }
    ensures lines { (file : List ℕ) → are_lines (lines_of file) ≡ true }
    ensures only { (lines : List (List ℕ)) → are_lines lines ≡ true → lines_of (bytes_of_lines lines) ≡ lines }
{}

/// How literals and comments go on in a line. A literal of an assertion ends with its closing quote; behind
/// its opening quote and items it is open; it ends before a bare end of a line, and before a carriage return
/// that follows a backslash and that no newline follows. Other bytes than quotes and `#` open nothing, and a
/// comment takes the rest of its line.
#[tactic(auto, using(crate::proofs::Literals::literal_facts))]
pub fn literals_in_lines()
    ensures whole { (bytes : List ℕ) → IsLiteral bytes → fold after_byte Within.Plain bytes ≡ Within.Plain }
    ensures open_behind { (items : List Item) → list_all is_item items ≡ true
        → is_literal (fold after_byte Within.Plain (34 ∷ items_bytes items)) ≡ true }
    ensures bare { (items : List Item) (end : ℕ) → list_all is_item items ≡ true
        → fold leaves_out false items ≡ false → (end ≡ 10) ⊎ (end ≡ 13)
        → fold after_byte Within.Plain (34 ∷ items_bytes items ++ end ∷ []) ≡ Within.Plain }
    ensures returned { (items : List Item) (next : ℕ) → list_all is_item items ≡ true → (next ≡ 10 → ⊥)
        → fold after_byte Within.Plain (34 ∷ items_bytes items ++ 92 ∷ 13 ∷ next ∷ [])
        ≡ after_byte Within.Plain next }
    ensures other { (bytes : List ℕ) → list_all (λ byte. not (byte == 34 || byte == 35)) bytes ≡ true
        → fold after_byte Within.Plain bytes ≡ Within.Plain }
    ensures comment { (bytes : List ℕ) → fold after_byte Within.Plain (35 ∷ bytes) ≡ Within.Comment }
{}

/// The spans of a file are in it and in their order, with something between each two, and have whole lines.
#[tactic(auto, using(crate::proofs::Rows::span_facts))]
pub fn spans_of_file()
    ensures within { (file : List ℕ) → All (IsWithin file) (spans_of file) }
    ensures apart { (file : List ℕ) → StandApart 0 (spans_of file) }
    ensures lines { (file : List ℕ) → All (HasWholeLines file) (spans_of file) }
{}

/// What is left out has neither a token nor a lexical fault, and all else has one.
#[tactic(auto, using(crate::proofs::LeftOut::kept))]
pub fn left_out()
    ensures neither { (text : List ℕ) → is_assertion text ≡ false → Cuts text [] × IsFaultless text }
    ensures either { (text : List ℕ) → is_assertion text ≡ true → Cuts text [] → IsFaultless text → ⊥ }
{}

/// A text without lexical faults isn't cut between its tokens: as a file it is one assertion where it has
/// tokens, and none where it has none.
#[tactic(auto, using(crate::proofs::TokenBoundaries::no_spans))]
pub fn faultless_text()
    ensures none { (text : List ℕ) → Cuts text [] → IsFaultless text → spans_of text ≡ [] }
    ensures one { (text : List ℕ) (token : TokenView) (tokens : List TokenView)
        → Cuts text (token ∷ tokens) → IsFaultless text → length (spans_of text) ≡ 1 }
{}

/// The spans of a file by its lines. Each paragraph that is an assertion is a span, and there is no other span.
/// A blank line that begins outside literals is in no span, and each other line is one of a paragraph, in whose
/// span it is.
#[tactic(auto, using(crate::proofs::Rows::paragraph_facts))]
pub fn spans_by_lines()
    ensures each { (file : List ℕ) (lines : List Line)
        → IsParagraph file lines → is_assertion (text_of lines) ≡ true
        → Contains (spans_of file) (span_of lines) }
    ensures only { (file : List ℕ) (span : Span) → Contains (spans_of file) span → IsOfParagraph file span }
    ensures blank { (file : List ℕ) (line : Line) (span : Span)
        → Contains (lines_in file) line → is_cut line ≡ true → Contains (spans_of file) span → LacksLine span line }
    ensures other { (file : List ℕ) (line : Line)
        → Contains (lines_in file) line → is_cut line ≡ false → IsOfLines file line }
    ensures inside { (file : List ℕ) (lines : List Line) (line : Line)
        → IsParagraph file lines → Contains lines line → HasLine (span_of lines) line }
{}

/// A line with the label of a comment that begins outside literals, and each line that goes on with its body,
/// opens no literal, whatever quotes it has: the next line begins outside literals. Behind a comment's line a line
/// that neither goes on with the body nor has such a label is read as any other. A line on which a literal goes on
/// has no labels, and is read from within that literal on.
#[tactic(auto, using(crate::proofs::Rows::comment_facts))]
pub fn comments_in_files()
    ensures opens_nothing { (file : List ℕ) (before comment : List Line) (next : Line) (behind : List Line)
        → lines_in file ≡ before ++ comment ++ next ∷ behind → AreOfComment comment
        → is_literal next.within ≡ false }
    ensures body_ends { (line : List ℕ)
        → is_continuation line ≡ false → is_comment_label (take 8 line) ≡ false
        → after_line Within.Body line ≡ fold after_byte Within.Plain line }
    ensures other_line { (within : Within) (line : List ℕ)
        → is_literal within ≡ false → (within ≡ Within.Body → ⊥) → is_comment_label (take 8 line) ≡ false
        → after_line within line ≡ fold after_byte Within.Plain line }
    ensures open_line { (within : Within) (line : List ℕ)
        → is_literal within ≡ true → after_line within line ≡ fold after_byte within line }
{}
