//! What holds of the definitions. Each law is the contract of a function that does nothing, and a crate
//! above gets it by a call.
ghost use Rattle.std.specs.Prelude.{◌≡◌, ◌≤◌, ◌↔◌, ◌⊎◌, ℕ, List, length, Ok, Err};
ghost use Rattle.kn_env.specs.Attributes.{is_attribute_name};
ghost use Rattle.kn_env.specs.Environment.{constant_value};
ghost use Rattle.kn_env.specs.declared.constant.Constant.{Constant};
ghost use Rattle.kn_lex.specs.Spelling.{is_name};
ghost use Rattle.kn_formula.specs.Trees.{constant_value as constant_text};
ghost use Rattle.kn_trees.specs.declared.assertion.Assertion.{Assertion};
ghost use Rattle.kn_fields.specs.Numbers.{fault_place};
ghost use Rattle.kn_assert.specs.Reading.{reading_of, IsSound};
ghost use Rattle.kn_assert.specs.AssertionTexts.{IsReading, IsFirstReadFault};
ghost use Rattle.kn_fields.specs.declared.fault.ReadFault.{ReadFault};
ghost use Rattle.kn_fields.specs.declared.fault.ReadFault.TheVariants.{NoMemory};

/// What is computed of a text is the assertion that it spells, or else its first fault, which is never `NoMemory`.
pub fn readings_are_computed()
    ensures reading { (text : List ℕ) (assertion : Assertion)
        → (reading_of text ≡ Ok assertion) ↔ IsReading text assertion }
    ensures fault { (text : List ℕ) (fault : ReadFault) → (reading_of text ≡ Err fault) ↔ IsFirstReadFault text fault }
    ensures not_memory { (text : List ℕ) → reading_of text ≡ Err NoMemory → ⊥ }
{
    kn_fields::laws::fields_are_computed();
    kn_fields::laws::depth_is_computed();
    kn_fields::laws::one_field_of_each_number();
    kn_formula::laws::licensees_found();
    kn_program::laws::program_found();
}

/// An assertion that a text spells is sound.
pub fn readings_are_sound()
    ensures { (text : List ℕ) (assertion : Assertion) → IsReading text assertion → IsSound (length text) assertion }
{
    kn_lex::laws::token_facts();
    kn_lex::laws::tokens_in_order();
    kn_lex::laws::tokens_or_first_fault();
}

/// The place that is given with the first fault of a text is at most the text's length. The number of a field is less
/// than the length of its label.
pub fn faults_stand_in_the_text()
    ensures { (text : List ℕ) (fault : ReadFault) → IsFirstReadFault text fault → fault_place fault ≤ length text }
{
    kn_lex::laws::token_facts();
    kn_lex::laws::tokens_or_first_fault();
}

/// Every text spells an assertion or has a first fault, never both, and at most one of either.
pub fn assertion_or_first_fault()
    ensures some { (text : List ℕ)
        → ((assertion : Assertion) × IsReading text assertion)
        ⊎ ((fault : ReadFault) × IsFirstReadFault text fault) }
    ensures not_both { (text : List ℕ) (assertion : Assertion) (fault : ReadFault)
        → IsReading text assertion → IsFirstReadFault text fault → ⊥ }
    ensures one_assertion { (text : List ℕ) (assertion other : Assertion)
        → IsReading text assertion → IsReading text other → assertion ≡ other }
    ensures one_fault { (text : List ℕ) (fault other : ReadFault)
        → IsFirstReadFault text fault → IsFirstReadFault text other → fault ≡ other }
{
    readings_are_computed();
}

/// A name is an attribute name, and the value of a constant is one for principals and for conditions.
pub fn names_agree()
    ensures names { (text : List ℕ) → is_name text ≡ is_attribute_name text }
    ensures constants { (constants : List Constant) (name : List ℕ)
        → constant_text constants name ≡ constant_value name constants }
{}
