//! Reading a Conditions field.
ghost use Rattle.std.specs.Prelude.{◌≡◌, ◌+◌, ◌≤◌, ◌<◌, ◌⊎◌, Option, IfOk, IfErr, IfSome, length, true};
ghost use Rattle.kn_trees.specs.Kinds.{is_well_kinded};
ghost use Rattle.kn_trees.specs.Depths.{program_depth};
ghost use Rattle.kn_fields.specs.Fields.{tokens_in_span};
ghost use Rattle.kn_fields.specs.Depth.{IsTooDeep};
ghost use Rattle.kn_trees.specs.declared.program.Program.{Program};
ghost use Rattle.kn_program.specs.Conditions.{IsConditions, Shows, program_of, Gives};
ghost use Rattle.kn_program.specs.declared.fault.ProgramFault.{ProgramFault};
ghost use Rattle.kn_program.specs.declared.fault.ProgramFault.TheVariants.{NoMemory};

use crate::clauses::program;
use crate::fault::ProgramFault;
use kn_fields::{Cursor, FieldSpan};
use kn_lex::Tokens;
use kn_trees::{Program, is_well_kinded};
use std::alloc::Global;

/// The program of a Conditions field, or None where the field has no token.
///
/// `part` says where the field stands among the tokens. As many levels of the grammar are open at once as the
/// field's brackets and prefix signs ask for, so a field that goes too deep isn't passed.
#[tactic(auto, using(crate::proofs::Stated::findings, crate::proofs::Depths::found_shallow))]
pub fn conditions(
    alloc: Global,
    tokens: &Tokens<'_>,
    part: FieldSpan,
) -> Result<Option<Program>, ProgramFault>
    requires before { part.label < part.end }
    requires within { part.end ≤ length tokens.now }
    requires shallow { IsTooDeep (tokens_in_span part tokens.now) → ⊥ }
    ensures program { IfOk result (λ conditions. IsConditions (tokens_in_span part tokens.now) conditions) }
    ensures fault { IfErr result (λ fault. (fault ≡ NoMemory) ⊎ Shows (tokens_in_span part tokens.now) fault) }
    ensures each_program { (conditions : Option Program) → IsConditions (tokens_in_span part tokens.now) conditions
        → (result ≡ Ok conditions) ⊎ (result ≡ Err NoMemory) }
    ensures each_fault { (fault : ProgramFault) → Shows (tokens_in_span part tokens.now) fault
        → (result ≡ Err fault) ⊎ (result ≡ Err NoMemory) }
    ensures given { Gives result (program_of (tokens_in_span part tokens.now)) }
    ensures well_kinded { IfOk result (λ conditions. IfSome conditions (λ program. is_well_kinded program ≡ true)) }
    ensures shallow { IfOk result (λ conditions. IfSome conditions (λ program. program_depth program ≤ 1700)) }
{
    read_conditions(alloc, tokens, part)
}

/// The program that is read of the field, or its fault.
#[tactic(auto, using(crate::proofs::Stated::nothing_found, crate::proofs::Stated::judged_by))]
fn read_conditions(
    alloc: Global,
    tokens: &Tokens<'_>,
    part: FieldSpan,
) -> Result<Option<Program>, ProgramFault>
    requires before { part.label < part.end }
    requires within { part.end ≤ length tokens.now }
    ensures given { Gives result (program_of (tokens_in_span part tokens.now)) }
    ensures well_kinded { IfOk result (λ conditions. IfSome conditions (λ program. is_well_kinded program ≡ true)) }
{
    let mut cursor = Cursor::of_field(tokens, part);
    if cursor.len() == 0 {
        return Ok(None);
    }
    let program = match program(alloc, &mut cursor) {
        Ok(program) => program,
        Err(grammar_fault) => return Err(ProgramFault::from(grammar_fault)),
    };
    if is_well_kinded(&program) {
        Ok(Some(program))
    } else {
        Err(ProgramFault::Kind)
    }
}
