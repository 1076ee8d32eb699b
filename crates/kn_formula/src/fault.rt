//! The faults of a Licensees field.
use kn_fields::GrammarFault;

/// Why the tokens of a Licensees field are no formula. The faults, their order and their numbers are keynoted's own.
#[derive(Clone, Copy, PartialEq, Eq)]
pub enum FormulaFault {
    /// Fault 16: the tokens spell nothing.
    Syntax,
    /// Fault 18: a threshold begins with the digit 0, or is above the length of its list.
    Threshold,
    /// Fault 19: a principal is a name without quotes other than `POLICY` that no local constant has, or its
    /// text is empty or has more than 4,096 bytes.
    Name,
    /// Out of memory for the formula.
    NoMemory,
}

impl From<GrammarFault> for FormulaFault {
    ghost use Rattle.std.specs.Prelude.{◌≡◌};
    ghost use Rattle.kn_formula.specs.Licensing.{of_grammar_fault};

    ghost from_gives = { λ grammar_fault fault. fault ≡ of_grammar_fault grammar_fault };

    fn from(grammar_fault: GrammarFault) -> FormulaFault {
        match grammar_fault {
            GrammarFault::Syntax => FormulaFault::Syntax,
            GrammarFault::NoMemory => FormulaFault::NoMemory,
        }
    }
}
