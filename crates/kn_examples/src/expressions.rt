//! Examples of expressions in conditions, from their text on. The functions have no body: their clauses are what they
//! say.

ghost use Rattle.std.specs.Prelude.{◌≡◌, ◌∷◌, [], true, false, codes, pos, neg_ℤ, Some, None, Err};
ghost use Rattle.kn_cond.specs.Meaning.{truth, whole, text, fault};
ghost use Rattle.kn_lex.specs.Computed.{tokens_or_fault};
ghost use Rattle.kn_lex.specs.declared.fault.LexFault.TheVariants.{Float, Regex, Number};
ghost use Rattle.kn_examples.specs.Queries.{plain, with_constants, where_is};
ghost use Rattle.kn_examples.specs.Conditions.{meaning_in};

/// Literals, numbers and truth values.
pub fn constants()
    ensures literal { meaning_in plain (codes "\"a b\"") ≡ Some (text (codes "a b")) }
    ensures escapes { meaning_in plain (codes "\"\\012\\101\\000\\7\"")
        ≡ Some (text (10 ∷ codes "A0007")) }
    ensures one_digit { meaning_in plain (codes "\"\\07\\08\"") ≡ Some (text (7 ∷ codes "08")) }
    ensures letters { meaning_in plain (codes "\"\\n\\t\\q\\\"\\\\\"") ≡ Some (text (10 ∷ 9 ∷ codes "q\"\\")) }
    ensures number { meaning_in plain (codes "2147483647") ≡ Some (whole (pos 2147483647)) }
    ensures truth { meaning_in plain (codes "TRUE") ≡ Some (truth true) }
    ensures no_name { meaning_in (where_is (codes "false") (codes "true")) (codes "false") ≡ Some (truth false) }
    ensures comment { meaning_in plain (codes "# 1\n 2 # 3\n") ≡ Some (whole (pos 2)) }
    ensures nothing { meaning_in plain [] ≡ None }
    ensures two { meaning_in plain (codes "1 2") ≡ None }
{}

/// Floats, regular expressions and numbers past 32 bits are refused where they stand.
pub fn left_out()
    ensures float_sign { tokens_or_fault (codes "&x < 1.5;") ≡ Err (Float 0) }
    ensures fraction { tokens_or_fault (codes "@x < 1.5;") ≡ Err (Float 5) }
    ensures regular_expression { tokens_or_fault (codes "x ~= \"a\";") ≡ Err (Regex 2) }
    ensures number { tokens_or_fault (codes "@x < 2147483648;") ≡ Err (Number 5) }
{}

/// Names, and names that are given as texts.
pub fn names()
    ensures attribute { meaning_in plain (codes "app_domain") ≡ Some (text (codes "mail")) }
    ensures absent { meaning_in plain (codes "colour") ≡ Some (text []) }
    ensures constant { meaning_in with_constants (codes "level") ≡ Some (text (codes "9")) }
    ensures named { meaning_in plain (codes "$field") ≡ Some (text (codes "4")) }
    ensures joined { meaning_in plain (codes "$(\"le\" . \"vel\")") ≡ Some (text (codes "4")) }
    ensures no_name { meaning_in plain (codes "$\"12\"") ≡ Some (text []) }
    ensures query { meaning_in plain (codes "$\"_MAX_TRUST\"") ≡ Some (text (codes "yes")) }
    ensures twice { meaning_in plain (codes "$$\"field\"") ≡ Some (text (codes "4")) }
{}

/// A name and a literal are compared by their bytes, and behind `@` as numbers.
pub fn comparisons()
    ensures equal { meaning_in plain (codes "app_domain == \"mail\"") ≡ Some (truth true) }
    ensures differ { meaning_in plain (codes "app_domain != \"Mail\"") ≡ Some (truth true) }
    ensures absent { meaning_in plain (codes "colour == \"\"") ≡ Some (truth true) }
    ensures texts { meaning_in plain (codes "level < \"12\"") ≡ Some (truth false) }
    ensures numbers { meaning_in plain (codes "@level < 12") ≡ Some (truth true) }
    ensures front { meaning_in plain (codes "\"a\" < \"ab\"") ≡ Some (truth true) }
    ensures upper_case { meaning_in plain (codes "\"B\" < \"a\"") ≡ Some (truth true) }
    ensures at_most { meaning_in plain (codes "4 <= 4") ≡ Some (truth true) }
    ensures above { meaning_in plain (codes "4 > 4") ≡ Some (truth false) }
    ensures at_least { meaning_in plain (codes "\"b\" >= \"ab\"") ≡ Some (truth true) }
    ensures mixed { meaning_in plain (codes "level == 4") ≡ Some fault }
    ensures in_a_row { meaning_in plain (codes "1 < 2 < 3") ≡ None }
{}

/// `@` reads the number that a text begins with.
pub fn numbers_of_texts()
    ensures letters_behind { meaning_in plain (codes "@size") ≡ Some (whole (pos 12)) }
    ensures fraction_behind { meaning_in plain (codes "@\"1.2\"") ≡ Some (whole (pos 1)) }
    ensures no_digit { meaning_in plain (codes "@app_domain") ≡ Some (whole (pos 0)) }
    ensures nothing { meaning_in plain (codes "@\"\"") ≡ Some (whole (pos 0)) }
    ensures space { meaning_in plain (codes "@\" 1\"") ≡ Some (whole (pos 0)) }
    ensures minus { meaning_in plain (codes "@\"-5x\"") ≡ Some (whole (neg_ℤ (pos 5))) }
    ensures least { meaning_in plain (codes "@\"-2147483648\"") ≡ Some (whole (neg_ℤ (pos 2147483648))) }
    ensures above { meaning_in plain (codes "@\"2147483648\"") ≡ Some fault }
{}

/// Quotients are cut towards zero, and a remainder has the dividend's sign.
pub fn arithmetic()
    ensures quotient { meaning_in plain (codes "-7 / 2") ≡ Some (whole (neg_ℤ (pos 3))) }
    ensures remainder { meaning_in plain (codes "-7 % 2") ≡ Some (whole (neg_ℤ (pos 1))) }
    ensures negative_divisor { meaning_in plain (codes "7 % -2") ≡ Some (whole (pos 1)) }
    ensures power { meaning_in plain (codes "-2 ^ 3") ≡ Some (whole (neg_ℤ (pos 8))) }
    ensures zero_power { meaning_in plain (codes "0 ^ 0") ≡ Some (whole (pos 1)) }
    ensures greatest_power { meaning_in plain (codes "2 ^ 30 - 1 + 2 ^ 30") ≡ Some (whole (pos 2147483647)) }
    ensures join { meaning_in plain (codes "\"a\" . \"b\" . level") ≡ Some (text (codes "ab4")) }
{}

/// Faults of arithmetic.
pub fn faults()
    ensures divisor { meaning_in plain (codes "1 / 0") ≡ Some fault }
    ensures modulus { meaning_in plain (codes "1 % 0") ≡ Some fault }
    ensures exponent { meaning_in plain (codes "2 ^ -1") ≡ Some fault }
    ensures sum { meaning_in plain (codes "2147483647 + 1") ≡ Some fault }
    ensures power { meaning_in plain (codes "2 ^ 31") ≡ Some fault }
    ensures least_quotient { meaning_in plain (codes "(-2147483647 - 1) / -1") ≡ Some fault }
    ensures least_remainder { meaning_in plain (codes "(-2147483647 - 1) % -1") ≡ Some fault }
    ensures least_minus { meaning_in plain (codes "-(-2147483647 - 1)") ≡ Some fault }
    ensures join_of_numbers { meaning_in plain (codes "1 . 2") ≡ Some fault }
    ensures sum_of_texts { meaning_in plain (codes "level + level") ≡ Some fault }
{}

/// A fault that is reached is the fault of the whole, and one that isn't reached counts for nothing.
pub fn reached_faults()
    ensures behind_true { meaning_in plain (codes "true || 1 / 0 == 1") ≡ Some (truth true) }
    ensures before_true { meaning_in plain (codes "1 / 0 == 1 || true") ≡ Some fault }
    ensures behind_false { meaning_in plain (codes "false && 1 / 0 == 1") ≡ Some (truth false) }
    ensures before_false { meaning_in plain (codes "1 / 0 == 1 && false") ≡ Some fault }
    ensures behind_no_decision { meaning_in plain (codes "false || 1 / 0 == 1") ≡ Some fault }
    ensures negated { meaning_in plain (codes "!(1 / 0 == 1)") ≡ Some fault }
{}

/// Which sign binds tighter, and that signs of one level group to the left.
pub fn precedence()
    ensures and_before_or { meaning_in plain (codes "true || false && false") ≡ Some (truth true) }
    ensures brackets { meaning_in plain (codes "(true || false) && false") ≡ Some (truth false) }
    ensures not_before_and { meaning_in plain (codes "!false && false") ≡ Some (truth false) }
    ensures not_before_or { meaning_in plain (codes "!true || true") ≡ Some (truth true) }
    ensures comparison_before_not { meaning_in plain (codes "!1 == 2") ≡ Some (truth true) }
    ensures times_before_plus { meaning_in plain (codes "1 + 2 * 3") ≡ Some (whole (pos 7)) }
    ensures power_before_times { meaning_in plain (codes "2 * 3 ^ 2") ≡ Some (whole (pos 18)) }
    ensures minus_before_power { meaning_in plain (codes "-2 ^ 2") ≡ Some (whole (pos 4)) }
    ensures differences { meaning_in plain (codes "7 - 2 - 1") ≡ Some (whole (pos 4)) }
    ensures quotients { meaning_in plain (codes "8 / 4 * 2") ≡ Some (whole (pos 4)) }
    ensures powers { meaning_in plain (codes "2 ^ 3 ^ 2") ≡ Some (whole (pos 64)) }
{}
