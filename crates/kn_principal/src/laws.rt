//! What holds of the definitions. Each law is the contract of a function that does nothing, and a crate
//! above gets it by a call.
ghost use Rattle.std.specs.Prelude.{◌≡◌, ℕ, List, codes};
ghost use Rattle.kn_principal.specs.Principals.{normal_form};

/// Normal forms of principals with a colon: an algorithm has no case, and hexadecimal digits have none.
pub fn normal_forms()
    ensures hexadecimal { normal_form (codes "RSA-Hex:AbC") ≡ codes "rsa-hex:abc" }
    ensures other { normal_form (codes "DSA-Base64:AbC") ≡ codes "dsa-base64:AbC" }
    ensures second_colon { normal_form (codes "X:RSA-HEX:Ab") ≡ codes "x:RSA-HEX:Ab" }
    ensures short { normal_form (codes "HEX:Ab") ≡ codes "hex:Ab" }
{}

/// A normal form is its own.
pub fn normal_again()
    ensures { (text : List ℕ) → normal_form (normal_form text) ≡ normal_form text }
{}
