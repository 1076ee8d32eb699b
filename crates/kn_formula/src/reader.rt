//! Reading a Licensees field.
ghost use Rattle.std.specs.Prelude.{◌≡◌, ◌⊎◌, ◌+◌, ◌≤◌, ◌<◌, IfOk, IfErr, IfSome, length, false, All};
ghost use Rattle.kn_trees.specs.Formulas.{IsReadable};
ghost use Rattle.kn_fields.specs.Fields.{tokens_in_span};
ghost use Rattle.kn_fields.specs.Depth.{IsTooDeep};
ghost use Rattle.kn_formula.specs.Licensing.{licensees_of, Gives, AreLicensees, Shows};

use crate::fault::FormulaFault;
use crate::grammar::written;
use crate::normal_formula::formula;
use crate::threshold::has_bad_threshold;
use kn_base::List;
use kn_env::Constant;
use kn_fields::{Cursor, FieldSpan};
use kn_lex::Tokens;
use kn_trees::Formula;
use std::alloc::Global;

/// The formula of a Licensees field, or None where the field has no token. Principals are in normal form.
///
/// `part` says where the field stands among the tokens, and `constants` are those of the assertion.
pub fn licensees(
    alloc: Global,
    tokens: &Tokens<'_>,
    part: FieldSpan,
    constants: &List<Constant>,
) -> Result<Option<Formula>, FormulaFault>
    requires before { part.label < part.end }
    requires within { part.end ≤ length tokens.now }
    requires shallow { IsTooDeep (tokens_in_span part tokens.now) → ⊥ }
    ensures given { Gives result (licensees_of constants.now (tokens_in_span part tokens.now)) }
    ensures stated { IfOk result (λ licensees. AreLicensees constants.now (tokens_in_span part tokens.now) licensees) }
    ensures shown { IfErr result (λ fault. (fault ≡ FormulaFault.NoMemory)
        ⊎ Shows constants.now (tokens_in_span part tokens.now) fault) }
    ensures readable { IfOk result (λ licensees. IfSome licensees (λ formula. IsReadable (length tokens.now) formula)) }
{
    read_licensees(alloc, tokens, part, constants)
}

/// The formula that is read of the field, or its fault.
fn read_licensees(
    alloc: Global,
    tokens: &Tokens<'_>,
    part: FieldSpan,
    constants: &List<Constant>,
) -> Result<Option<Formula>, FormulaFault>
    requires before { part.label < part.end }
    requires within { part.end ≤ length tokens.now }
    ensures { Gives result (licensees_of constants.now (tokens_in_span part tokens.now)) }
{
    let mut cursor = Cursor::of_field(tokens, part);
    if cursor.len() == 0 {
        return Ok(None);
    }
    let written = match written(alloc, &mut cursor) {
        Ok(written) => written,
        Err(grammar_fault) => return Err(FormulaFault::from(grammar_fault)),
    };
    if has_bad_threshold(&written) {
        return Err(FormulaFault::Threshold);
    }
    match formula(alloc, constants.as_slice(), &written) {
        Ok(formula) => Ok(Some(formula)),
        Err(fault) => Err(fault),
    }
}
