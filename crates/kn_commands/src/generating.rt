//! Generating credentials, adding them to a new registry, and settling one query over them.
ghost use Rattle.std.specs.Prelude.{◌<◌, ◌≤◌, length, IfOk};
ghost use Rattle.kn_base.specs.declared.limits.TheConstants.{GENERATED_CREDENTIALS};
ghost use Rattle.kn_generate.specs.Generated.{generated_query, generated_values};
ghost use Rattle.kn_generate.specs.Measured.{IsMeasured};

use kn_base::NoMemory;
use kn_generate::laws::generated_texts_load;
use kn_generate::{Measured, generate_texts, measure};
use kn_history::laws::loading_ends;
use kn_load::{LoadFault, load_texts};
use kn_words::GenNumbers;
use std::alloc::Global;
use std::sync::Wait;

/// Settles the generator's query over its credentials, which the root pass of a new registry has added.
///
/// `NoMemory` comes only when memory runs out.
pub fn generate<R: Wait>(rt: &R, alloc: Global, numbers: GenNumbers) -> Result<Measured, NoMemory>
    requires some { 1 ≤ numbers.count }
    requires most { numbers.count ≤ GENERATED_CREDENTIALS }
    ensures measured { IfOk result (λ m. IsMeasured (generated_query numbers.start numbers.count) m) }
    ensures low { IfOk result (λ m. m.level < length generated_values) }
{
    generated_texts_load();
    loading_ends();
    let texts = generate_texts(alloc, numbers.start, numbers.count)?;
    let (registry, mut root) = match load_texts(rt, alloc, &texts) {
        Ok(made) => made,
        Err(LoadFault::NoMemory) => return Err(NoMemory),
        Err(_) => unreachable!(),
    };
    let snapshot = registry.pin(rt, &mut root)?;
    measure(alloc, &snapshot, numbers.count)
}
