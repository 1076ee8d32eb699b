//! Why nothing is read of a field.

use kn_base::NoMemory;

/// Why no tree is read of the tokens of a field.
#[derive(Clone, Copy, PartialEq, Eq)]
pub enum GrammarFault {
    /// The tokens spell nothing.
    Syntax,
    /// Out of memory for the tree.
    NoMemory,
}

impl From<NoMemory> for GrammarFault {
    ghost use Rattle.std.specs.Prelude.{◌≡◌};
    ghost use Rattle.kn_fields.specs.declared.grammar_fault.GrammarFault.TheVariants.{NoMemory};

    ghost from_gives = { λ _ e. e ≡ NoMemory };

    fn from(_none: NoMemory) -> GrammarFault {
        GrammarFault::NoMemory
    }
}
