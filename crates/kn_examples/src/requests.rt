//! Examples of request lines, and of hexadecimal digits. The functions have no body: their clauses are what they say.

ghost use Rattle.std.specs.Prelude.{◌≡◌, ◌∷◌, [], true, false, codes, Some};
ghost use Rattle.kn_wire.specs.Requests as Q;
ghost use Rattle.kn_wire.specs.Requests.{first_of, is_hex};
ghost use Rattle.kn_wire.specs.Hex.{digit_value, bytes_of_hex};
ghost use Rattle.kn_wire.specs.declared.fault.WireFault.TheVariants as F;

/// Lines that end something.
pub fn ending_lines()
    ensures close { first_of (codes "CLOSE 1\nBYE\n") ≡ Some (Q.Close 1, codes "BYE\n") }
    ensures close_nothing { first_of (codes "CLOSE\n") ≡ Some (Q.Faulty F.Syntax, []) }
    ensures close_more { first_of (codes "CLOSE 1 2\n") ≡ Some (Q.Faulty F.Syntax, []) }
    ensures clear { first_of (codes "CLEAR 12\n") ≡ Some (Q.Clear 12, []) }
    ensures clear_letters { first_of (codes "CLEAR p1\n") ≡ Some (Q.Faulty F.Syntax, []) }
    ensures bye { first_of (codes "BYE\r\nOPEN\n") ≡ Some (Q.Bye, codes "OPEN\n") }
    ensures bye_more { first_of (codes "BYE now\n") ≡ Some (Q.Faulty F.Syntax, []) }
{}

/// Numbers in lines have one to nine digits, and begin with 0 only where they are 0.
pub fn numbers_of_lines()
    ensures zero { first_of (codes "CLOSE 0\n") ≡ Some (Q.Close 0, []) }
    ensures nine_digits { first_of (codes "CLOSE 123456789\n") ≡ Some (Q.Close 123456789, []) }
    ensures ten_digits { first_of (codes "CLOSE 1234567890\n") ≡ Some (Q.Faulty F.Syntax, []) }
    ensures leading_zero { first_of (codes "CLOSE 01\n") ≡ Some (Q.Faulty F.Syntax, []) }
    ensures sign { first_of (codes "CLOSE +1\n") ≡ Some (Q.Faulty F.Syntax, []) }
    ensures nothing { first_of (codes "CLOSE \n") ≡ Some (Q.Faulty F.Syntax, []) }
{}

/// Lines about assertions: a session's own have ids with the letter p, shared ones with the letter a.
pub fn assertion_lines()
    ensures assert { first_of (codes "ASSERT 1 2\nab\nBYE\n") ≡ Some (Q.Assert 1 (codes "ab"), codes "BYE\n") }
    ensures assert_nothing { first_of (codes "ASSERT 1 0\n\n") ≡ Some (Q.Assert 1 [], []) }
    ensures assert_alone { first_of (codes "ASSERT 2\nab\n") ≡ Some (Q.Faulty F.Syntax, codes "ab\n") }
    ensures retract { first_of (codes "RETRACT 1 p1\n") ≡ Some (Q.Retract 1 1, []) }
    ensures retract_shared { first_of (codes "RETRACT 1 a1\n") ≡ Some (Q.Faulty F.Syntax, []) }
    ensures retract_number { first_of (codes "RETRACT 1 1\n") ≡ Some (Q.Faulty F.Syntax, []) }
    ensures drop { first_of (codes "DROP a12\n") ≡ Some (Q.Drop 12, []) }
    ensures drop_private { first_of (codes "DROP p1\n") ≡ Some (Q.Faulty F.Syntax, []) }
{}

/// Lines that set and unset attributes.
pub fn attribute_lines()
    ensures set_hex { first_of (codes "SETX 1 v 312e32\n") ≡ Some (Q.SetHex 1 (codes "v") (codes "312e32"), []) }
    ensures set_empty { first_of (codes "SETX 1 v \n") ≡ Some (Q.SetHex 1 (codes "v") [], []) }
    ensures set_name_alone { first_of (codes "SETX 1 v\n") ≡ Some (Q.SetHex 1 (codes "v") [], []) }
    ensures set_odd { first_of (codes "SETX 1 v 312\n") ≡ Some (Q.Faulty F.Syntax, []) }
    ensures set_letter { first_of (codes "SETX 1 v 3g\n") ≡ Some (Q.Faulty F.Syntax, []) }
    ensures set_words { first_of (codes "SETX 1 v 31 2e\n") ≡ Some (Q.Faulty F.Syntax, []) }
    ensures unset { first_of (codes "UNSET 1 v\n") ≡ Some (Q.Unset 1 (codes "v"), []) }
    ensures unset_nothing { first_of (codes "UNSET 1 \n") ≡ Some (Q.Faulty F.Syntax, []) }
    ensures unset_two { first_of (codes "UNSET 1 v w\n") ≡ Some (Q.Faulty F.Syntax, []) }
{}

/// Lines about principals.
pub fn principal_lines()
    ensures unauth { first_of (codes "UNAUTH 1 a b\n") ≡ Some (Q.Unauth 1 (codes "a b"), []) }
    ensures unauth_empty { first_of (codes "UNAUTH 1 \n") ≡ Some (Q.Unauth 1 [], []) }
    ensures unauth_nobody { first_of (codes "UNAUTH 1\n") ≡ Some (Q.Faulty F.Syntax, []) }
    ensures admin { first_of (codes "ADMIN 733363726574\n") ≡ Some (Q.Admin (codes "733363726574"), []) }
    ensures admin_empty { first_of (codes "ADMIN \n") ≡ Some (Q.Faulty F.Syntax, []) }
    ensures admin_odd { first_of (codes "ADMIN 7\n") ≡ Some (Q.Faulty F.Syntax, []) }
{}

/// Hexadecimal digits of either case, of each two the higher first.
pub fn hexadecimal_digits()
    ensures ten { digit_value 97 ≡ 10 }
    ensures ten_in_upper_case { digit_value 65 ≡ 10 }
    ensures fifteen { digit_value 102 ≡ 15 }
    ensures fifteen_in_upper_case { digit_value 70 ≡ 15 }
    ensures nine { digit_value 57 ≡ 9 }
    ensures secret { bytes_of_hex (codes "733363726574") ≡ codes "s3cret" }
    ensures either_case { bytes_of_hex (codes "0aA0fF") ≡ 10 ∷ 160 ∷ 255 ∷ [] }
    ensures text { bytes_of_hex (codes "312e32") ≡ codes "1.2" }
    ensures letters { is_hex (codes "0123456789abcdefABCDEF") ≡ true }
    ensures no_letter { is_hex (codes "0g") ≡ false }
    ensures odd { is_hex (codes "abc") ≡ false }
    ensures nothing { is_hex [] ≡ true }
{}
