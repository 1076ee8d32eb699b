//! Laws of the definitions, for the crates above: each is the contract of a function that does nothing.

ghost use Rattle.std.specs.Prelude.{◌≡◌, ◌↔◌, List, Option, Ok, Err};
ghost use Rattle.kn_env.specs.declared.constant.Constant.{Constant};
ghost use Rattle.kn_lex.specs.Cutting.{TokenView};
ghost use Rattle.kn_trees.specs.declared.formula.Formula.{Formula};
ghost use Rattle.kn_formula.specs.Grammar.{Spells};
ghost use Rattle.kn_formula.specs.Licensing.{AreLicensees, Shows, licensees_of};
ghost use Rattle.kn_formula.specs.declared.fault.FormulaFault.{FormulaFault};
ghost use Rattle.kn_formula.specs.declared.written.Written.{Written};

/// A list of tokens spells at most one formula.
pub fn one_reading()
    ensures { (tokens : List TokenView) (a b : Written) → Spells tokens a → Spells tokens b → a ≡ b }
{}

/// What is found of tokens is the formula that they state, or the fault that they show, and nothing else.
pub fn licensees_found()
    ensures formula { (constants : List Constant) (tokens : List TokenView) (formula : Option Formula)
        → licensees_of constants tokens ≡ Ok formula ↔ AreLicensees constants tokens formula }
    ensures fault { (constants : List Constant) (tokens : List TokenView) (fault : FormulaFault)
        → licensees_of constants tokens ≡ Err fault ↔ Shows constants tokens fault }
{}
