//! Laws of the definitions, for the crates above: each is the contract of a function that does nothing.

ghost use Rattle.std.specs.Prelude.{◌≡◌, ◌⊎◌, ℕ, List};
ghost use Rattle.kn_auth.specs.KeyFiles.{IsKeyFile, IsFirstMalformed};
ghost use Rattle.kn_auth.specs.declared.key_file.KeyFile.{KeyFile};

use crate::entry::KEY_BYTES;

/// A text is a key file of one content or has one first malformed line, and never both.
pub fn one_reading()
    ensures each { (text : List ℕ)
        → ((file : KeyFile) × IsKeyFile text file) ⊎ ((line : ℕ) × IsFirstMalformed text line) }
    ensures not_both { (text : List ℕ) (file : KeyFile) (line : ℕ)
        → IsKeyFile text file → ¬ IsFirstMalformed text line }
    ensures one_file { (text : List ℕ) (file other : KeyFile)
        → IsKeyFile text file → IsKeyFile text other → file ≡ other }
    ensures one_line { (text : List ℕ) (line other : ℕ)
        → IsFirstMalformed text line → IsFirstMalformed text other → line ≡ other }
{}

/// The bytes of a key, and of the administrators' secret.
pub fn key_limit()
    ensures { KEY_BYTES ≡ 128 }
{}
