//! The formula with its principals in normal form.
ghost use Rattle.std.specs.Prelude.{◌≡◌, codes};
ghost use Rattle.std.specs.Option.{option_map};
ghost use Rattle.kn_formula.specs.Trees.{principal_text, normal_text, is_bad_text, formula_by_rule};
ghost use Rattle.kn_formula.specs.Naming.{NamesText, Names};

use crate::fault::FormulaFault;
use crate::written::{Principal, Rule, Written};
use kn_base::{List, Octets};
use kn_env::{Constant, constant_value};
use kn_principal::{POLICY, PrincipalFault, normal};
use kn_trees::Formula;
use std::alloc::Global;

/// The text of a principal, or None where it is a name that no constant has.
#[tactic(auto, unfolding(crate::specs::Trees::constant_value))]
fn principal_text<'a>(constants: &'a [Constant], principal: &'a Principal) -> Option<&'a [u8]>
    ensures { option_map (λ text. text.now) result ≡ principal_text constants.now principal.now }
{
    match principal {
        Principal::Literal(value) => Some(value.as_slice()),
        Principal::Name(name) => {
            if name.as_slice() == POLICY {
                Some(POLICY)
            } else {
                constant_value(constants, name.as_slice())
            }
        }
    }
}

/// The normal form of a principal.
fn principal_form(
    alloc: Global,
    constants: &[Constant],
    principal: &Principal,
) -> Result<Octets, FormulaFault>
    ensures { NamesText (principal_text constants.now principal.now) result }
{
    let Some(text) = principal_text(constants, principal) else {
        return Err(FormulaFault::Name);
    };
    match normal(alloc, text) {
        Ok(form) => Ok(form),
        Err(PrincipalFault::NoMemory) => Err(FormulaFault::NoMemory),
        Err(PrincipalFault::Empty) => Err(FormulaFault::Name),
        Err(PrincipalFault::TooLong { .. }) => Err(FormulaFault::Name),
    }
}

/// Several formulas under a rule.
fn formula_by_rule(rule: Rule, parts: List<Formula>) -> Formula
    ensures { result ≡ formula_by_rule rule parts }
{
    match rule {
        Rule::All => Formula::All(parts),
        Rule::Any => Formula::Any(parts),
        Rule::AtLeast(need) => Formula::Threshold { need, list: parts },
    }
}

/// The formula with its principals in normal form, or the fault of a principal.
pub(crate) fn formula(
    alloc: Global,
    constants: &[Constant],
    written: &Written,
) -> Result<Formula, FormulaFault>
    ensures { Names constants.now written.now result }
{
    match written {
        Written::Who(principal) => match principal_form(alloc, constants, principal) {
            Ok(form) => Ok(Formula::Who(form)),
            Err(fault) => Err(fault),
        },
        Written::Several { rule, parts } => {
            let mut list = List::new(alloc);
            for part in parts.as_slice() {
                let formula = match formula(alloc, constants, part) {
                    Ok(formula) => formula,
                    Err(fault) => return Err(fault),
                };
                match list.push(formula) {
                    Ok(()) => {}
                    Err(_) => return Err(FormulaFault::NoMemory),
                }
            }
            Ok(formula_by_rule(*rule, list))
        }
    }
}
