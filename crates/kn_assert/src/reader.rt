//! Reading an assertion from a text.
ghost use Rattle.std.specs.Prelude.{◌≡◌, ◌≤◌, ◌⊎◌, length, Some, Ok, Err, IfOk, IfErr, IfSome};
ghost use Rattle.kn_base.specs.declared.limits.TheConstants.{ASSERTION_BYTES};
ghost use Rattle.kn_trees.specs.Depths.{program_depth};
ghost use Rattle.kn_fields.specs.Numbers.{fault_place};
ghost use Rattle.kn_fields.specs.declared.fault.ReadFault.{ReadFault};
ghost use Rattle.kn_fields.specs.declared.fault.ReadFault.TheVariants.{NoMemory};
ghost use Rattle.kn_assert.specs.Parts.{Gives};
ghost use Rattle.kn_assert.specs.Reading.{reading_of, assertion_of, fault_of, IsSound};
ghost use Rattle.kn_assert.specs.AssertionTexts.{IsReading, IsFirstReadFault};
ghost use Rattle.kn_trees.specs.declared.assertion.Assertion.{Assertion};

use crate::laws;
use crate::stated::{Stated, read_fields};
use kn_fields::{ReadFault, fields};
use kn_trees::Assertion;
use std::alloc::Global;

/// The assertion of a text, or its first fault, as they are computed.
fn reading(alloc: Global, text: &[u8]) -> Result<Assertion, ReadFault>
    ensures { Gives result (reading_of text.now) }
{
    kn_fields::laws::fields_are_computed();
    let fields = fields(alloc, text)?;
    let stated = read_fields(alloc, &fields)?;
    let Stated {
        authorizer,
        licensees,
        conditions,
        signature,
    } = stated;
    let Some(authorizer) = authorizer else {
        return Err(ReadFault::NoAuthorizer);
    };
    Ok(Assertion {
        authorizer,
        licensees,
        conditions,
        signature,
        constants: fields.constants,
        signed_to: fields.signed_to,
    })
}

/// The assertion of a text (RFC 2704, section 4), or its first fault in the one order of faults. The place that is
/// given with a fault is at most the text's length.
pub fn read(alloc: Global, text: &[u8]) -> Result<Assertion, ReadFault>
    ensures ok { IfOk result (λ assertion. assertion_of text.now ≡ Some assertion) }
    ensures err { IfErr result (λ fault. (fault ≡ NoMemory) ⊎ (fault_of text.now ≡ Some fault)) }
    ensures reading { IfOk result (λ assertion. IsReading text.now assertion) }
    ensures first { IfErr result (λ fault. (fault ≡ NoMemory) ⊎ IsFirstReadFault text.now fault) }
    ensures each_reading { (assertion : Assertion) → IsReading text.now assertion
        → (result ≡ Ok assertion) ⊎ (result ≡ Err NoMemory) }
    ensures each_fault { (fault : ReadFault) → IsFirstReadFault text.now fault
        → (result ≡ Err fault) ⊎ (result ≡ Err NoMemory) }
    ensures sound { IfOk result (λ assertion. IsSound (length text.now) assertion) }
    ensures shallow { IfOk result (λ assertion. IfSome assertion.conditions (λ program. program_depth program ≤ 1700)) }
    ensures short { IfOk result (λ assertion. length text.now ≤ ASSERTION_BYTES) }
    ensures place { IfErr result (λ fault. fault_place fault ≤ length text.now) }
{
    laws::readings_are_computed();
    laws::readings_are_sound();
    laws::faults_stand_in_the_text();
    reading(alloc, text)
}
