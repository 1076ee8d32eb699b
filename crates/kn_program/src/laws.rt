//! Laws of the definitions, for the crates above: each is the contract of a function that does nothing.

ghost use Rattle.std.specs.Prelude.{◌≡◌, ◌↔◌, List, Option, Ok, Err};
ghost use Rattle.kn_lex.specs.Cutting.{TokenView};
ghost use Rattle.kn_trees.specs.declared.program.Program.{Program};
ghost use Rattle.kn_program.specs.Grammar.{IsProgram};
ghost use Rattle.kn_program.specs.Conditions.{IsConditions, Shows, program_of};
ghost use Rattle.kn_program.specs.declared.fault.ProgramFault.{ProgramFault};

/// A list of tokens spells at most one program.
pub fn one_reading()
    ensures { (tokens : List TokenView) (a b : Program) → IsProgram tokens a → IsProgram tokens b → a ≡ b }
{}

/// What is found of tokens is the program that they state, or the fault that they show, and nothing else.
#[tactic(auto, using(crate::proofs::Stated::findings))]
pub fn program_found()
    ensures program { (tokens : List TokenView) (program : Option Program)
        → program_of tokens ≡ Ok program ↔ IsConditions tokens program }
    ensures fault { (tokens : List TokenView) (fault : ProgramFault)
        → program_of tokens ≡ Err fault ↔ Shows tokens fault }
{}
