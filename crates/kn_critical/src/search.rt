//! The search for critical assertions.
ghost use Rattle.std.specs.Prelude.{◌≡◌, ◌⊎◌, ◌+◌, ◌<◌, None, Some, length, map, IfErr, IfOk, OnOk};
ghost use Rattle.kn_meaning.specs.Critical.{AreCritical, equation_nodes};
ghost use Rattle.kn_meaning.specs.Equations.{IsPolicyLevel, equations_over};
ghost use Rattle.kn_meaning.specs.Proofs.{IsProof};
ghost use Rattle.kn_rows.specs.Numbering.{AreDistinct};
ghost use Rattle.kn_rows.specs.Sizes.{HaveTexts};
ghost use Rattle.kn_answer.specs.Based.{condition_values};
ghost use Rattle.kn_critical.specs.Faults.{critical_fault};
ghost use Rattle.kn_critical.specs.Searching.{AreUncritical, DecidesCritical, IsWhole};

use crate::fault::CriticalFault;
use crate::question::Question;
use crate::remembered::{Picked, Remembered};
use crate::runs::{clear_rows, is_named};
use kn_answer::laws::bases_have_nodes;
use kn_answer::{Answer, Assertions, Base, ConditionValues, Evaluated};
use kn_base::limits::CRITICAL_NODES;
use kn_base::{List, NoMemory};
use kn_env::Query;
use kn_laws::laws::unnamed_is_not_critical;
use kn_proof::Id;
use kn_rows::{Part, count_nodes};
use std::alloc::Global;
use std::marker::Brand;

/// The compliance value of a query, and what it stands on.
#[derive(Drop)]
pub struct Critical {
    /// The policy's level in the least fixed point of the query's equations, the lowest being 0.
    pub value: u8,
    /// The ids of the assertions without which the value would be lower, in the order of the assertions.
    pub ids: List<Id>,
}

/// The compliance value of a query (RFC 2704, section 5), and the critical ones of its assertions (keynoted's own):
/// each of them by itself, taken away, lowers the value. The assertions are those of texts that have at most
/// 16,777,000 bytes together.
///
/// More nodes than 16,384 are refused. `NoMemory` comes only when memory runs out.
pub fn find_critical(
    alloc: Global,
    list: &List<Part<'_>>,
    query: &Query<'_>,
) -> Result<Critical, CriticalFault>
    requires texts { HaveTexts list.now }
    requires ids { AreDistinct (map (λ part. part.id) list.now) }
    ensures least { IfOk result (λ c. IsPolicyLevel (equations_over query.now list.now) c.value) }
    ensures critical { IfOk result (λ c. AreCritical query.now list.now list.now c.ids) }
    ensures below { IfOk result (λ c. c.value < length query.now.values) }
    ensures accepted { OnOk result (critical_fault (equation_nodes (equations_over query.now list.now)) ≡ None) }
    ensures fault { IfErr result (λ f. (f ≡ CriticalFault.NoMemory)
        ⊎ (critical_fault (equation_nodes (equations_over query.now list.now)) ≡ Some f)) }
{
    bases_have_nodes();
    // The contract of `requesters` says that there are 64 at most, each of 1 to 4,096 bytes, and none `POLICY`.
    let _requesters = query.requesters();
    let Some(mut base) = Base::of(alloc, list, CRITICAL_NODES)? else {
        return Err(CriticalFault::Large {
            nodes: count_nodes(list),
        });
    };
    Ok(search::<Brand>(alloc, &mut base, list, query)?)
}

// The search over a base of the assertions. Each of their conditions is evaluated once at most.
fn search<P: Picked>(
    alloc: Global,
    base: &mut Base,
    list: &List<Part<'_>>,
    query: &Query<'_>,
) -> Result<Critical, NoMemory>
    requires picked { P.values ≡ condition_values query.now list.now }
    requires ids { AreDistinct (map (λ part. part.id) list.now) }
    requires whole { IsWhole query.now list.now base.old }
    ensures least { IfOk result (λ c. IsPolicyLevel (equations_over query.now list.now) c.value) }
    ensures critical { IfOk result (λ c. AreCritical query.now list.now list.now c.ids) }
    ensures below { IfOk result (λ c. c.value < length query.now.values) }
{
    let evaluated = Evaluated::of(alloc, query, list);
    let values: Remembered<_, P> = Remembered::of(alloc, evaluated, list.len())?;
    let question = Question {
        query,
        list,
        values,
    };
    let answer = base.answer_by(alloc, query, list, &question.values)?;
    let ids = critical_ids(alloc, base, &question, &answer)?;
    Ok(Critical {
        value: answer.value,
        ids,
    })
}

// How far a search has come.
#[derive(Clone, Copy, Drop)]
struct Gallop {
    // No row before this one is critical, of those that are still to be named.
    cleared: u32,
    // How many rows are tried at once the next time.
    length: u32,
}

// The ids of the critical assertions, in their order.
fn critical_ids<V: ConditionValues>(
    alloc: Global,
    base: &mut Base,
    question: &Question<'_, '_, '_, V>,
    answer: &Answer,
) -> Result<List<Id>, NoMemory>
    requires ids { AreDistinct (map (λ part. part.id) question.now.list.now) }
    requires whole { IsWhole question.now.query.now question.now.list.now base.old }
    requires proof { IsProof (equations_over question.now.query.now question.now.list.now) answer.now.rows
        answer.now.value }
    requires least { IsPolicyLevel (equations_over question.now.query.now question.now.list.now) answer.now.value }
    ensures { IfOk result (λ ids. AreCritical question.now.query.now question.now.list.now question.now.list.now ids) }
{
    let mut ids = List::new(alloc);
    let mut gallop = Gallop {
        cleared: 0,
        length: 1,
    };
    for row in 0..question.list.len() {
        let critical = is_critical(alloc, base, question, answer, row, &mut gallop)?;
        if critical {
            ids.add(question.list.id(row))?;
        }
    }
    Ok(ids)
}

// Whether the assertion of a row is critical. One that no row of a proof names isn't, nor is one that was cleared with
// others. Any other is tried with the rows behind it: twice as many as were cleared the last time, and at first alone.
fn is_critical<V: ConditionValues>(
    alloc: Global,
    base: &mut Base,
    question: &Question<'_, '_, '_, V>,
    answer: &Answer,
    row: u32,
    gallop: &mut Gallop,
) -> Result<bool, NoMemory>
    requires in_range { row < length question.now.list.now }
    requires ids { AreDistinct (map (λ part. part.id) question.now.list.now) }
    requires whole { IsWhole question.now.query.now question.now.list.now base.old }
    requires proof { IsProof (equations_over question.now.query.now question.now.list.now) answer.now.rows
        answer.now.value }
    requires least { IsPolicyLevel (equations_over question.now.query.now question.now.list.now) answer.now.value }
    requires cleared { AreUncritical question.now.query.now question.now.list.now row gallop.old.cleared }
    ensures critical { IfOk result (DecidesCritical question.now.query.now question.now.list.now row) }
    ensures whole { IsWhole question.now.query.now question.now.list.now base.new }
    ensures cleared { OnOk result (AreUncritical question.now.query.now question.now.list.now (row + 1)
        gallop.new.cleared) }
{
    unnamed_is_not_critical();
    if row < gallop.cleared {
        return Ok(false);
    }
    if !is_named(&answer.rows, question.list.id(row)) {
        return Ok(false);
    }
    let length = gallop.length.max(1).min(question.list.len() - row);
    let cleared = clear_rows(alloc, base, question, answer, row, length)?;
    gallop.cleared = row + cleared;
    gallop.length = cleared.saturating_mul(2);
    Ok(cleared == 0)
}
