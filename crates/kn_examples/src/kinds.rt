//! Examples of the kinds of expressions, from their text on: by its form alone each is a truth, a number or a text, or
//! of no kind. The functions have no body: their clauses are what they say.

ghost use Rattle.std.specs.Prelude.{◌≡◌, codes, Some, None};
ghost use Rattle.kn_trees.specs.declared.kinds.Kind.TheVariants as K;
ghost use Rattle.kn_examples.specs.Conditions.{kind_in};

/// Expressions of each kind.
pub fn kinds()
    ensures literal { kind_in (codes "\"1\"") ≡ Some K.Text }
    ensures name { kind_in (codes "level") ≡ Some K.Text }
    ensures number { kind_in (codes "1") ≡ Some K.Whole }
    ensures truth { kind_in (codes "False") ≡ Some K.Truth }
    ensures minus { kind_in (codes "-1") ≡ Some K.Whole }
    ensures number_of { kind_in (codes "@level") ≡ Some K.Whole }
    ensures value_named { kind_in (codes "$level") ≡ Some K.Text }
    ensures join { kind_in (codes "level . \"1\"") ≡ Some K.Text }
    ensures sum { kind_in (codes "1 + @level") ≡ Some K.Whole }
    ensures texts { kind_in (codes "level < \"1\"") ≡ Some K.Truth }
    ensures numbers { kind_in (codes "@level < 1") ≡ Some K.Truth }
    ensures negation { kind_in (codes "!(level == \"1\") || true") ≡ Some K.Truth }
{}

/// Expressions of no kind.
pub fn no_kinds()
    ensures mixed { kind_in (codes "level == 1") ≡ None }
    ensures truths { kind_in (codes "true == true") ≡ None }
    ensures minus_of_text { kind_in (codes "-level") ≡ None }
    ensures number_of_number { kind_in (codes "@1") ≡ None }
    ensures value_of_number { kind_in (codes "$1") ≡ None }
    ensures negation_of_number { kind_in (codes "!1") ≡ None }
    ensures join_of_numbers { kind_in (codes "1 . 2") ≡ None }
    ensures sum_of_texts { kind_in (codes "level + level") ≡ None }
    ensures text_as_truth { kind_in (codes "level && true") ≡ None }
    ensures comparison_of_comparison { kind_in (codes "(1 < 2) < 3") ≡ None }
{}
