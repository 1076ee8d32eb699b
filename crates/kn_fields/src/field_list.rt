//! The fields of a text.

use crate::heading::LabelledTokens;
use kn_base::List;
use kn_env::Constant;

/// An assertion's text, cut into its fields.
#[derive(Drop)]
pub struct Fields<'a> {
    /// The tokens of the whole text, with the fields of its labels.
    pub tokens: LabelledTokens<'a>,
    /// The local constants, which hold in all fields.
    pub constants: List<Constant>,
    /// How many bytes of the text a signature covers: up to its label, or all.
    pub signed_to: u32,
}
