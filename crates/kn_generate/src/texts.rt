//! All credentials of the generator.
ghost use Rattle.std.specs.Prelude.{◌≡◌, ◌≤◌, ◌++◌, ◌∷◌, [], IfOk, OnOk};
ghost use Rattle.kn_base.specs.declared.limits.TheConstants.{GENERATED_CREDENTIALS};
ghost use Rattle.kn_generate.specs.Generated.{generated_texts};

use crate::draws::Draws;
use crate::text::credential;
use kn_base::{List, NoMemory, Octets};
use std::alloc::Global;

/// The texts of `count` credentials by the draws from `start`.
///
/// `NoMemory` comes only when memory runs out.
pub fn generate_texts(alloc: Global, start: u32, count: u32) -> Result<List<Octets>, NoMemory>
    requires some { 1 ≤ count }
    requires most { count ≤ GENERATED_CREDENTIALS }
    ensures { IfOk result (λ texts. texts ≡ generated_texts start count) }
{
    let mut texts = List::new(alloc);
    let policy = Octets::from_slice(alloc, b"Authorizer: \"POLICY\"\nLicensees: \"p0\"\n")?;
    push(&mut texts, policy)?;
    let mut draws = Draws { state: start };
    for authorizer in 0..count - 1 {
        let numbers = draws.draw_numbers(count, authorizer);
        let text = credential(alloc, authorizer, &numbers)?;
        push(&mut texts, text)?;
    }
    Ok(texts)
}

/// Adds a text at the end.
fn push(texts: &mut List<Octets>, text: Octets) -> Result<(), NoMemory>
    ensures { OnOk result (texts.new ≡ texts.old ++ text ∷ []) }
{
    match texts.push(text) {
        Ok(()) => Ok(()),
        Err(_) => Err(NoMemory),
    }
}
