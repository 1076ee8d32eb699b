//! Worked examples of the definitions, each shown by computing it. The functions have no body: their clauses are
//! what they say.

ghost use Rattle.std.specs.Prelude.{ℕ, List, ◌≡◌, ◌∷◌, [], codes, Some, None};
ghost use Rattle.kn_meaning.specs.Formulas.{Levels};
ghost use Rattle.kn_meaning.specs.Equations.{Equations, IsLeast};
ghost use Rattle.kn_meaning.specs.Examples.{question, direct_policy, cyclic_policy};
ghost use Rattle.kn_env.specs.Values.{values_of};

/// Which texts name compliance values.
pub fn value_texts()
    ensures two { values_of (codes "no,yes") ≡ Some (codes "no" ∷ codes "yes" ∷ []) }
    ensures one { values_of (codes "yes") ≡ None }
    ensures twice { values_of (codes "no,no") ≡ None }
    ensures empty { values_of [] ≡ None }
    ensures empty_name { values_of (codes "no,") ≡ None }
    ensures space { values_of (codes "no,y s") ≡ None }
{}

/// What the policy gives in the least fixed point, whatever levels are that one.
pub fn policy_levels()
    ensures granted { (at : Levels) → IsLeast (question (codes "alice") direct_policy) at → at (codes "POLICY") ≡ 1 }
    ensures some { (at : Levels) × IsLeast (question (codes "alice") direct_policy) at }
    ensures denied { (at : Levels) → IsLeast (question (codes "bob") direct_policy) at → at (codes "POLICY") ≡ 0 }
    ensures empty { (at : Levels) → IsLeast (question (codes "alice") []) at → at (codes "POLICY") ≡ 0 }
    ensures cycle { (at : Levels) → IsLeast (question (codes "c") cyclic_policy) at → at (codes "POLICY") ≡ 0 }
{}

/// There is one least fixed point at most.
pub fn least_levels_are_one()
    ensures { (e : Equations) (at other : Levels)
        → IsLeast e at → IsLeast e other → (name : List ℕ) → at name ≡ other name }
{}
