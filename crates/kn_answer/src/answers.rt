//! The answer to a query.
ghost use Rattle.std.specs.Prelude.{◌<◌, length, IfOk};
ghost use Rattle.kn_meaning.specs.Equations.{IsPolicyLevel, equations_over};
ghost use Rattle.kn_meaning.specs.Proofs.{IsProof};
ghost use Rattle.kn_rows.specs.Sizes.{HaveTexts};

use crate::base::Base;
use crate::types::Answer;
use kn_base::{List, NoMemory};
use kn_env::Query;
use kn_rows::Part;
use std::alloc::Global;

/// The compliance value of a query (RFC 2704, section 5), with a proof of it by names (keynoted's own). Its assertions
/// are those of texts that have at most 16,777,000 bytes together.
///
/// The system is made for this query alone, of the principals that may have a level above the lowest in it. Conditions
/// are evaluated only where licensees reach them.
///
/// `NoMemory` comes only when memory runs out.
pub fn answer(alloc: Global, list: &List<Part<'_>>, query: &Query<'_>) -> Result<Answer, NoMemory>
    requires { HaveTexts list.now }
    ensures proof { IfOk result (λ a. IsProof (equations_over query.now list.now) a.rows a.value) }
    ensures least { IfOk result (λ a. IsPolicyLevel (equations_over query.now list.now) a.value) }
    ensures below { IfOk result (λ a. a.value < length query.now.values) }
{
    let mut base = Base::of_leveled(alloc, list, query)?;
    base.answer_narrowed(alloc, query, list)
}
