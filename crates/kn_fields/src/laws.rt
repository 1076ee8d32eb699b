//! Laws of the definitions, for the crates above: each is the contract of a function that does nothing.

ghost use Rattle.std.specs.Prelude.{◌≡◌, ◌↔◌, ◌⊎◌, ℕ, true, false, List, ◌∷◌, ◌++◌, Some, None, Ok, Err};
ghost use Rattle.kn_lex.specs.Cutting.{TokenView, Cuts};
ghost use Rattle.kn_lex.specs.Faults.{IsFaultless};
ghost use Rattle.kn_fields.specs.Fields.{Field, fields_of, field_of, field_with};
ghost use Rattle.kn_fields.specs.Constants.{IsConstantList};
ghost use Rattle.kn_fields.specs.Faults.{IsWellFielded, IsFirstFault};
ghost use Rattle.kn_fields.specs.Depth.{IsTooDeep, HasOpenBrackets, HasPrefixRun};
ghost use Rattle.kn_fields.specs.Scanning.{goes_deep};
ghost use Rattle.kn_fields.specs.Computed.{fields_or_fault};
ghost use Rattle.kn_fields.specs.declared.fault.ReadFault.{ReadFault};

/// Every text has either none of the faults of its fields or a first one, never both, and at most one first
/// one.
pub fn no_fault_or_first_fault()
    ensures some { (text : List ℕ) → IsWellFielded text ⊎ ((fault : ReadFault) × IsFirstFault text fault) }
    ensures not_both { (text : List ℕ) (fault : ReadFault) → IsWellFielded text → IsFirstFault text fault → ⊥ }
    ensures one_fault { (text : List ℕ) (fault other : ReadFault)
        → IsFirstFault text fault → IsFirstFault text other → fault ≡ other }
{
    kn_lex::laws::tokens_or_first_fault();
    kn_lex::laws::tokens_are_computed();
}

/// What is computed of a text is the list of its tokens where it has none of the faults, and else its first
/// fault.
pub fn fields_are_computed()
    ensures tokens { (text : List ℕ) (tokens : List TokenView)
        → (fields_or_fault text ≡ Ok tokens) ↔ (Cuts text tokens × IsWellFielded text) }
    ensures fault { (text : List ℕ) (fault : ReadFault) → (fields_or_fault text ≡ Err fault) ↔ IsFirstFault text fault }
{
    kn_lex::laws::tokens_or_first_fault();
    kn_lex::laws::tokens_are_computed();
}

/// The test of a field's depth is what it is to go too deep.
pub fn depth_is_computed()
    ensures deep { (tokens : List TokenView) → goes_deep 0 0 tokens ≡ true → IsTooDeep tokens }
    ensures not_deep { (tokens : List TokenView) → goes_deep 0 0 tokens ≡ false → IsTooDeep tokens → ⊥ }
{}

/// Tokens go too deep exactly where some of them in a row have more than 64 opening brackets more than closing ones, or
/// more than 8 in a row are prefix signs.
pub fn depth_by_stretches()
    ensures { (tokens : List TokenView) → IsTooDeep tokens ↔ (HasOpenBrackets tokens ⊎ HasPrefixRun tokens) }
{}

/// In a text without these faults each field is the one of its number, there is an Authorizer, and the tokens
/// of Local-Constants are a list of constants.
pub fn one_field_of_each_number()
    ensures one { (text : List ℕ) (tokens : List TokenView) → Cuts text tokens → IsWellFielded text
        → (before : List Field) (field : Field) (behind : List Field) → fields_of tokens ≡ before ++ field ∷ behind
        → (number : ℕ) → field_of field.label ≡ Some number → field_with number tokens ≡ Some field }
    ensures constants { (text : List ℕ) (tokens : List TokenView) → Cuts text tokens → IsWellFielded text
        → (field : Field) → field_with 6 tokens ≡ Some field → IsConstantList field.tokens }
    ensures authorizer { (text : List ℕ) (tokens : List TokenView) → Cuts text tokens → IsWellFielded text
        → field_with 1 tokens ≡ None → ⊥ }
{
    kn_lex::laws::tokens_or_first_fault();
}
