//! Examples of formulas over principals with levels. The functions have no body: their clauses are what they say.

ghost use Rattle.std.specs.Prelude.{◌≡◌, ◌∷◌, [], codes, None};
ghost use Rattle.kn_trees.specs.declared.formula.Formula.TheVariants.{Who, All, Any, Threshold};
ghost use Rattle.kn_base.specs.Threshold.{threshold};
ghost use Rattle.kn_meaning.specs.Formulas.{Levels, formula_level};
ghost use Rattle.kn_meaning.specs.Equations.{IsLeast, licensees_level, worth, round};
ghost use Rattle.kn_examples.specs.Licences.{levels, alice, bob, carol, of_three, statement, licences, asked_by};

/// The K-th highest of some levels.
pub fn highest_levels()
    ensures first { threshold 3 1 (2 ∷ 0 ∷ 3 ∷ 1 ∷ []) ≡ 3 }
    ensures second { threshold 3 2 (2 ∷ 0 ∷ 3 ∷ 1 ∷ []) ≡ 2 }
    ensures third { threshold 3 3 (2 ∷ 0 ∷ 3 ∷ 1 ∷ []) ≡ 1 }
    ensures fourth { threshold 3 4 (2 ∷ 0 ∷ 3 ∷ 1 ∷ []) ≡ 0 }
    ensures equal { threshold 3 2 (2 ∷ 2 ∷ 0 ∷ []) ≡ 2 }
    ensures nothing { threshold 3 1 [] ≡ 0 }
{}

/// The levels of formulas, where alice has 0, bob 1 and carol 2.
pub fn formula_levels()
    ensures principal { formula_level 2 levels bob ≡ 1 }
    ensures stranger { formula_level 2 levels (Who (codes "dave")) ≡ 0 }
    ensures both { formula_level 2 levels (All (carol ∷ bob ∷ [])) ≡ 1 }
    ensures all { formula_level 2 levels (All (carol ∷ bob ∷ alice ∷ [])) ≡ 0 }
    ensures either { formula_level 2 levels (Any (alice ∷ bob ∷ [])) ≡ 1 }
    ensures any { formula_level 2 levels (Any (alice ∷ bob ∷ carol ∷ [])) ≡ 2 }
    ensures one_of_three { formula_level 2 levels (of_three 1) ≡ 2 }
    ensures two_of_three { formula_level 2 levels (of_three 2) ≡ 1 }
    ensures three_of_three { formula_level 2 levels (of_three 3) ≡ 0 }
    ensures written_twice { formula_level 2 levels (Threshold 2 (alice ∷ carol ∷ carol ∷ [])) ≡ 2 }
    ensures nested { formula_level 2 levels
        (Threshold 2 (All (bob ∷ carol ∷ []) ∷ alice ∷ Any (alice ∷ carol ∷ []) ∷ [])) ≡ 1 }
{}

/// What an assertion is worth: the lower of its conditions' and its licensees' level.
pub fn worths()
    ensures conditions { worth 2 levels (statement (codes "POLICY") 1 carol) ≡ 1 }
    ensures licensees { worth 2 levels (statement (codes "POLICY") 2 bob) ≡ 1 }
    ensures equal { worth 2 levels (statement (codes "POLICY") 2 carol) ≡ 2 }
    ensures no_licensees { licensees_level 2 levels None ≡ 0 }
{}

/// A round over the levels: a requester has the highest, and another principal what its assertions give it.
pub fn rounds()
    ensures requester { round licences levels (codes "alice") ≡ 2 }
    ensures highest { round licences levels (codes "POLICY") ≡ 1 }
    ensures one { round licences levels (codes "carol") ≡ 1 }
    ensures none { round licences levels (codes "bob") ≡ 0 }
{}

/// The policy's level in the least fixed point, where it licenses two of three principals, one of which is licensed by
/// another principal up to the middle level.
pub fn policy_levels()
    ensures middle { (at : Levels) → IsLeast (asked_by (codes "x" ∷ codes "w" ∷ [])) at → at (codes "POLICY") ≡ 1 }
    ensures highest { (at : Levels) → IsLeast (asked_by (codes "x" ∷ codes "z" ∷ [])) at → at (codes "POLICY") ≡ 2 }
    ensures lowest { (at : Levels) → IsLeast (asked_by (codes "x" ∷ [])) at → at (codes "POLICY") ≡ 0 }
{}
