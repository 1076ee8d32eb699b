//! The faults of a Conditions field.
use kn_fields::GrammarFault;

/// Why the tokens of a Conditions field are no program. The faults, their order and their numbers are keynoted's own.
#[derive(Clone, Copy, PartialEq, Eq)]
pub enum ProgramFault {
    /// Fault 16: the tokens spell nothing.
    Syntax,
    /// Fault 17: a test isn't a truth, or a value no text.
    Kind,
    /// Out of memory for the program.
    NoMemory,
}

impl From<GrammarFault> for ProgramFault {
    ghost use Rattle.std.specs.Prelude.{◌≡◌};
    ghost use Rattle.kn_program.specs.Conditions.{of_grammar_fault};

    ghost from_gives = { λ grammar_fault fault. fault ≡ of_grammar_fault grammar_fault };

    fn from(grammar_fault: GrammarFault) -> ProgramFault {
        match grammar_fault {
            GrammarFault::Syntax => ProgramFault::Syntax,
            GrammarFault::NoMemory => ProgramFault::NoMemory,
        }
    }
}
