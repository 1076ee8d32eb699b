//! Examples of the values of conditions, from their text on. The functions have no body: their clauses are what they
//! say.

ghost use Rattle.std.specs.Prelude.{◌≡◌, ◌∷◌, [], codes, Some, None, Ok};
ghost use Rattle.kn_program.specs.Conditions.{program_of};
ghost use Rattle.kn_cond.specs.Programs.{field_value};
ghost use Rattle.kn_examples.specs.Queries.{attribute, plain, with_constants, acting, where_is, user, user_conditions};
ghost use Rattle.kn_examples.specs.Conditions.{value_in};

/// The values of one clause, among three of which the highest has index 2.
pub fn clauses()
    ensures named { value_in plain (codes "app_domain == \"mail\" && @level > 3 -> \"yes\";") ≡ Some 2 }
    ensures middle { value_in plain (codes "app_domain == \"mail\" && @level > 3 -> \"log\";") ≡ Some 1 }
    ensures not_true { value_in plain (codes "app_domain == \"mail\" && @level > 4 -> \"yes\";") ≡ Some 0 }
    ensures bare { value_in plain (codes "app_domain == \"mail\"") ≡ Some 2 }
    ensures no_value { value_in plain (codes "true -> \"YES\";") ≡ Some 0 }
    ensures of_the_query { value_in plain (codes "true -> _MAX_TRUST;") ≡ Some 2 }
    ensures of_a_name { value_in (where_is (codes "v") (codes "log")) (codes "true -> v;") ≡ Some 1 }
    ensures own_constant { value_in with_constants (codes "@level == 9 -> \"log\"") ≡ Some 1 }
    ensures faulty_value { value_in plain (codes "true -> \"yes\" + \"\";") ≡ Some 0 }
    ensures no_test { value_in plain (codes "-> \"yes\";") ≡ None }
    ensures half { value_in plain (codes "true ->;") ≡ None }
{}

/// A test that gives a fault isn't true.
pub fn faulty_tests()
    ensures first { value_in plain (codes "@x / 0 == 1 || true -> \"yes\";") ≡ Some 0 }
    ensures not_reached { value_in plain (codes "true || @x / 0 == 1 -> \"yes\";") ≡ Some 2 }
    ensures negated { value_in plain (codes "!(@x / 0 == 1) -> \"yes\";") ≡ Some 0 }
    ensures below { value_in (where_is (codes "x") (codes "-2147483648")) (codes "@x - 1 < 0;") ≡ Some 0 }
    ensures least { value_in (where_is (codes "x") (codes "-2147483647")) (codes "@x - 1 < 0;") ≡ Some 2 }
    ensures other_clause { value_in plain (codes "1 / 0 == 1 -> \"yes\"; true -> \"log\"") ≡ Some 1 }
{}

/// The highest value of the clauses whose tests are true counts, wherever it stands.
pub fn several_clauses()
    ensures highest { value_in plain (codes "true -> \"yes\"; true -> \"log\";") ≡ Some 2 }
    ensures highest_last { value_in plain (codes "true -> \"log\"; true -> \"yes\";") ≡ Some 2 }
    ensures one_true { value_in plain (codes "false -> \"yes\"; true -> \"log\";") ≡ Some 1 }
    ensures none_true { value_in plain (codes "false; false -> \"yes\";") ≡ Some 0 }
    ensures empty_clauses { value_in plain (codes ";; ;") ≡ Some 0 }
    ensures empty_beside { value_in plain (codes ";; true -> \"log\"; ;") ≡ Some 1 }
{}

/// A block has the value of its program.
pub fn blocks()
    ensures taken { value_in (where_is (codes "a") (codes "1"))
        (codes "a == \"1\" -> { b == \"2\" -> \"yes\"; true -> \"log\"; };") ≡ Some 1 }
    ensures both { value_in (acting (attribute (codes "a") (codes "1") ∷ attribute (codes "b") (codes "2") ∷ []))
        (codes "a == \"1\" -> { b == \"2\" -> \"yes\"; true -> \"log\"; };") ≡ Some 2 }
    ensures not_taken { value_in (where_is (codes "b") (codes "2"))
        (codes "a == \"1\" -> { b == \"2\" -> \"yes\"; true -> \"log\"; };") ≡ Some 0 }
    ensures empty { value_in (where_is (codes "a") (codes "1")) (codes "a == \"1\" -> {};") ≡ Some 0 }
    ensures bare { value_in plain (codes "true -> { true }") ≡ Some 2 }
    ensures within { value_in plain (codes "true -> { true -> { true -> \"log\" } }; false") ≡ Some 1 }
    ensures unended { value_in plain (codes "true -> { true") ≡ None }
{}

/// A field that is absent or has no token has the highest value.
pub fn no_conditions()
    ensures nothing { program_of [] ≡ Ok None }
    ensures highest { field_value plain None ≡ 2 }
{}

/// An access by user numbers and names, with four values of which the highest has index 3.
pub fn user_access()
    ensures by_name { value_in (user (codes "1073") (codes "root")) user_conditions ≡ Some 3 }
    ensures nobody { value_in (user (codes "19283") (codes "nobody")) user_conditions ≡ Some 0 }
    ensures guest { value_in (user (codes "1073") (codes "nobody")) user_conditions ≡ Some 1 }
    ensures by_number { value_in (user (codes "0") (codes "nobody")) user_conditions ≡ Some 3 }
{}
