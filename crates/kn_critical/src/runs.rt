//! Runs of rows that are taken out of a base together: where the policy keeps its level, none of them is critical.
ghost use Rattle.std.specs.Prelude.{◌≡◌, ◌+◌, ◌<◌, ◌≤◌, true, length, map, replicate, IfOk};
ghost use Rattle.kn_meaning.specs.Critical.{is_row_by};
ghost use Rattle.kn_meaning.specs.Equations.{IsPolicyLevel, equations_over};
ghost use Rattle.kn_meaning.specs.Proofs.{IsProof};
ghost use Rattle.kn_rows.specs.Numbering.{AreDistinct};
ghost use Rattle.kn_critical.specs.Searching.{AreUncritical, IsLevelWithoutRun, IsRowCritical, IsRowNamed, IsWhole};
ghost use Rattle.kn_critical.specs.Searching.{flags_with, flags_without};

use crate::question::Question;
use kn_answer::{Answer, Assertions, Base, ConditionValues};
use kn_base::{List, NoMemory};
use kn_laws::laws::{every_query_has_a_level, unnamed_is_not_critical};
use kn_proof::{Id, NamedRow};
use kn_rows::Part;
use std::alloc::Global;

// How many rows from this one on, which a proof names, are known not to be critical: none where its own assertion is.
// So many as `limit` are tried at once, and half as many after each try that lowers the value.
pub(crate) fn clear_rows<V: ConditionValues>(
    alloc: Global,
    base: &mut Base,
    question: &Question<'_, '_, '_, V>,
    answer: &Answer,
    row: u32,
    limit: u32,
) -> Result<u32, NoMemory>
    requires some { 1 ≤ limit }
    requires in_range { row + limit ≤ length question.now.list.now }
    requires ids { AreDistinct (map (λ part. part.id) question.now.list.now) }
    requires whole { IsWhole question.now.query.now question.now.list.now base.old }
    requires proof { IsProof (equations_over question.now.query.now question.now.list.now) answer.now.rows
        answer.now.value }
    requires least { IsPolicyLevel (equations_over question.now.query.now question.now.list.now) answer.now.value }
    requires named { IsRowNamed answer.now.rows question.now.list.now row }
    ensures within { IfOk result (λ cleared. cleared ≤ limit) }
    ensures cleared { IfOk result (λ cleared.
        AreUncritical question.now.query.now question.now.list.now row (row + cleared)) }
    ensures critical { IfOk result (λ cleared.
        cleared ≡ 0 → IsRowCritical question.now.query.now question.now.list.now row) }
    ensures whole { IsWhole question.now.query.now question.now.list.now base.new }
{
    every_query_has_a_level();
    unnamed_is_not_critical();
    // The contract of `len` says that the length is a `u32`, so the ends of all runs fit one.
    let _rows = question.list.len();
    let mut count = limit;
    while count > 0 {
        let value = value_without_run(alloc, base, question, &answer.rows, row, row + count)?;
        if value >= answer.value {
            return Ok(count);
        }
        count /= 2;
    }
    Ok(0)
}

// The compliance value without those assertions of a run that a proof names, which are there again afterwards.
fn value_without_run<V: ConditionValues>(
    alloc: Global,
    base: &mut Base,
    question: &Question<'_, '_, '_, V>,
    rows: &List<NamedRow>,
    start: u32,
    end: u32,
) -> Result<u8, NoMemory>
    requires ordered { start ≤ end }
    requires in_range { end ≤ length question.now.list.now }
    requires whole { IsWhole question.now.query.now question.now.list.now base.old }
    ensures least { IfOk result (IsLevelWithoutRun question.now.query.now rows.now question.now.list.now start end) }
    ensures whole { IsWhole question.now.query.now question.now.list.now base.new }
{
    remove_run(base, question.list, rows, start, end);
    let answer = base.answer_by(alloc, question.query, question.list, &question.values);
    restore_run(base, start, end);
    Ok(answer?.value)
}

// Takes those assertions of a run out that a proof names.
fn remove_run(base: &mut Base, list: &List<Part<'_>>, rows: &List<NamedRow>, start: u32, end: u32)
    requires ordered { start ≤ end }
    requires in_range { end ≤ length list.now }
    requires live { base.old.live ≡ replicate (length list.now) true }
    ensures { base.new ≡ record base.old { live = flags_without rows.now list.now start end } }
{
    for row in start..end {
        if is_named(rows, list.id(row)) {
            base.remove(row);
        }
    }
}

// Puts the assertions of a run back.
fn restore_run(base: &mut Base, start: u32, end: u32)
    requires ordered { start ≤ end }
    requires in_range { end ≤ length base.old.live }
    ensures { base.new ≡ record base.old { live = flags_with base.old.live start end } }
{
    for row in start..end {
        base.restore(row);
    }
}

// Whether a row of a proof names an assertion.
pub(crate) fn is_named(rows: &List<NamedRow>, id: Id) -> bool
    ensures { result ≡ is_row_by rows.now id }
{
    for row in rows.as_slice() {
        if row.id == id {
            return true;
        }
    }
    false
}
