//! Examples of names and their values, and of attributes. The functions have no body: their clauses are what they say.

ghost use Rattle.std.specs.Prelude.{◌≡◌, ◌∷◌, [], true, false, codes, replicate, Some, None};
ghost use Rattle.kn_env.specs.declared.attributes.EnvFault.TheVariants.{BadName, BadValue, Full};
ghost use Rattle.kn_env.specs.Attributes.{is_attribute_name, is_settable, attribute_value, attribute_fault};
ghost use Rattle.kn_env.specs.Attributes.{with_attribute, without_attribute};
ghost use Rattle.kn_env.specs.Environment.{asked_value, name_value};
ghost use Rattle.kn_env.specs.Values.{index_of};
ghost use Rattle.kn_examples.specs.Queries.{attribute, mail, plain, with_constants};

/// The values of the names that a query itself gives.
pub fn query_names()
    ensures lowest { asked_value (codes "_MIN_TRUST") mail ≡ codes "no" }
    ensures highest { asked_value (codes "_MAX_TRUST") mail ≡ codes "yes" }
    ensures values { asked_value (codes "_VALUES") mail ≡ codes "no,log,yes" }
    ensures requesters { asked_value (codes "_ACTION_AUTHORIZERS") mail ≡ codes "alice,rsa-hex:1023abcd" }
    ensures other_low { asked_value (codes "_secret") mail ≡ [] }
    ensures group { asked_value (codes "_0") mail ≡ [] }
    ensures lower_case { asked_value (codes "_min_trust") mail ≡ [] }
{}

/// The values of names in an assertion: its local constants come before all others.
pub fn names_of_an_assertion()
    ensures attribute { name_value plain (codes "app_domain") ≡ codes "mail" }
    ensures absent { name_value plain (codes "colour") ≡ [] }
    ensures upper_case { name_value plain (codes "App_Domain") ≡ [] }
    ensures of_the_query { name_value plain (codes "_MAX_TRUST") ≡ codes "yes" }
    ensures constant { name_value with_constants (codes "owner") ≡ codes "carol" }
    ensures constant_first { name_value with_constants (codes "level") ≡ codes "9" }
    ensures other_attribute { name_value with_constants (codes "app_domain") ≡ codes "mail" }
    ensures no_constant { name_value plain (codes "owner") ≡ [] }
{}

/// Which texts are names of attributes, and which of them may be set.
pub fn attribute_names()
    ensures letters { is_attribute_name (codes "app_Domain2") ≡ true }
    ensures low { is_attribute_name (codes "_v") ≡ true }
    ensures digit_first { is_attribute_name (codes "2v") ≡ false }
    ensures hyphen { is_attribute_name (codes "a-b") ≡ false }
    ensures nothing { is_attribute_name [] ≡ false }
    ensures settable { is_settable (codes "v") ≡ true }
    ensures low_is_not { is_settable (codes "_v") ≡ false }
    ensures longest { is_settable (replicate 128 97) ≡ true }
    ensures longer { is_settable (replicate 129 97) ≡ false }
{}

/// Why an attribute isn't set. A new value of a name that is there is no further attribute.
pub fn attribute_faults()
    ensures none { attribute_fault (codes "v") (codes "1") [] ≡ None }
    ensures name { attribute_fault (codes "_v") (replicate 4097 97) [] ≡ Some BadName }
    ensures value { attribute_fault (codes "v") (replicate 4097 97) [] ≡ Some BadValue }
    ensures longest { attribute_fault (codes "v") (replicate 4096 97) [] ≡ None }
    ensures more { attribute_fault (codes "v") [] (replicate 256 (attribute (codes "w") [])) ≡ Some (Full 256) }
    ensures there { attribute_fault (codes "w") [] (replicate 256 (attribute (codes "w") [])) ≡ None }
    ensures last { attribute_fault (codes "v") [] (replicate 255 (attribute (codes "w") [])) ≡ None }
{}

/// Attributes keep the places at which they were entered.
pub fn changes_of_attributes()
    ensures first { with_attribute (codes "v") (codes "1") [] ≡ attribute (codes "v") (codes "1") ∷ [] }
    ensures new { with_attribute (codes "w") [] (attribute (codes "v") (codes "1") ∷ [])
        ≡ attribute (codes "v") (codes "1") ∷ attribute (codes "w") [] ∷ [] }
    ensures again { with_attribute (codes "v") (codes "2")
        (attribute (codes "v") (codes "1") ∷ attribute (codes "w") [] ∷ [])
        ≡ attribute (codes "v") (codes "2") ∷ attribute (codes "w") [] ∷ [] }
    ensures gone { without_attribute (codes "v") (attribute (codes "v") (codes "1") ∷ attribute (codes "w") [] ∷ [])
        ≡ attribute (codes "w") [] ∷ [] }
    ensures empty_is_there { attribute_value (codes "w") (attribute (codes "w") [] ∷ []) ≡ Some [] }
    ensures not_there { attribute_value (codes "v") (attribute (codes "w") [] ∷ []) ≡ None }
{}

/// The indices of compliance values, of which the lowest has 0.
pub fn indices_of_values()
    ensures lowest { index_of (codes "no") mail.values ≡ Some 0 }
    ensures highest { index_of (codes "yes") mail.values ≡ Some 2 }
    ensures none { index_of (codes "YES") mail.values ≡ None }
{}
