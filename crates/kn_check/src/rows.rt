//! Checking the rows of a proof.
ghost use Rattle.std.specs.Prelude.{◌≡◌, ◌<◌, ◌+◌, ◌-◌, ◌^◌, ℕ, length, min, slice_index, IfErr, IsOk, OnOk};
ghost use Rattle.kn_check.specs.Reads.{nodes_read, support_nodes};
ghost use Rattle.kn_check.specs.Rejects.{IsOwn, IsReject, IsRowReject, IsRowFault, IsUnclosed, worth_at};
ghost use Rattle.kn_check.specs.declared.reject.Reject.TheVariants.{Unclosed};
ghost use Rattle.kn_system.specs.Counts.{IsWithin};
ghost use Rattle.kn_system.specs.Equations.{node_total, row_at};
ghost use Rattle.kn_system.specs.Least.{at_first, least_levels};
ghost use Rattle.kn_system.specs.Lawful.{AreLevels};
ghost use Rattle.kn_system.specs.Proofs.{levels_after, AreSteps, IsClosed, IsProof, IsStep};

use crate::reject::Reject;
use kn_base::{List, Steps};
use kn_proof::{Proof, Row};
use kn_system::{System, laws};

/// Whether a proof proves that the policy has the claimed level in a system (keynoted's own), and else the first item
/// that fails. What is claimed is then the policy's level in the least fixed point.
///
/// A step is a node of a formula that is read: one formula for each row of the proof, and then that of each row of the
/// system.
///
/// `work` is room for the levels, one byte for each principal. What it holds doesn't matter, before or after. No memory
/// is taken.
pub fn check<L>(
    system: &System<L>,
    proof: &Proof,
    claimed: u8,
    work: &mut [u8],
    steps: &mut Steps<L>,
) -> Result<(), Reject>
    requires one_each { length work.old ≡ length system.now.requesters }
    ensures ok { OnOk result (IsProof system.now proof.now.rows claimed) }
    ensures err { IfErr result (λ reject. IsReject system.now proof.now.rows claimed reject) }
    ensures only { IsProof system.now proof.now.rows claimed → IsOk result }
    ensures least { OnOk result (claimed ≡ slice_index (least_levels system.now) 0) }
    ensures ticks { IsWithin (nodes_read system.now proof.now.rows) steps.old steps.new }
{
    system.first_levels(work);
    follow_rows(system, &proof.rows, work, steps)?;
    test_closed(system, work, steps)?;
    laws::proof_determines_level();
    let found = work[0];
    if found != claimed {
        return Err(Reject::Claim { found });
    }
    Ok(())
}

// Tries the rows in order, and gives each principal its level: `levels` are then those after all rows.
fn follow_rows<L>(
    system: &System<L>,
    rows: &List<Row>,
    levels: &mut [u8],
    steps: &mut Steps<L>,
) -> Result<(), Reject>
    requires first { levels.old ≡ at_first system.now }
    requires fit { AreLevels system.now levels.old }
    ensures ok { OnOk result (AreSteps system.now (at_first system.now) rows.now) }
    ensures after { OnOk result (levels.new ≡ levels_after (at_first system.now) rows.now) }
    ensures fit { OnOk result (AreLevels system.now levels.new) }
    ensures err { IfErr result (λ reject. (k : ℕ) × IsRowFault system.now rows.now reject k) }
    ensures ticks { IsWithin (support_nodes system.now rows.now) steps.old steps.new }
{
    laws::proofs_go_on();
    let items = rows.as_slice();
    for number in 0..rows.len() {
        let row = items[number as usize];
        test_names(system, number, row, levels)?;
        test_support(system, number, row, levels, steps)?;
        levels[row.principal as usize] = row.value;
    }
    Ok(())
}

// Whether all that a row names is there, and its principal may get its level by the row of the system.
fn test_names<L>(system: &System<L>, number: u32, row: Row, levels: &[u8]) -> Result<(), Reject>
    requires one_each { length levels.now ≡ length system.now.requesters }
    ensures ok { OnOk result (IsOwn system.now levels.now row) }
    ensures err { IfErr result (λ reject. IsRowReject system.now levels.now number row reject) }
{
    if row.principal >= system.principals()
        || row.by >= system.rows()
        || row.value >= system.levels()
    {
        return Err(Reject::Range { row: number });
    }
    if system.is_requester(row.principal) {
        return Err(Reject::Requester { row: number });
    }
    if levels[row.principal as usize] > 0 {
        return Err(Reject::Again { row: number });
    }
    if row.value == 0 {
        return Err(Reject::Zero { row: number });
    }
    if system.authorizer(row.by) != row.principal {
        return Err(Reject::Foreign { row: number });
    }
    Ok(())
}

// Whether the row of the system is worth the level.
fn test_support<L>(
    system: &System<L>,
    number: u32,
    row: Row,
    levels: &[u8],
    steps: &mut Steps<L>,
) -> Result<(), Reject>
    requires fit { AreLevels system.now levels.now }
    requires own { IsOwn system.now levels.now row }
    ensures ok { OnOk result (IsStep system.now levels.now row) }
    ensures err { IfErr result (λ reject. IsRowReject system.now levels.now number row reject) }
    ensures ticks { steps.new ≡ min (steps.old + length (row_at system.now.rows row.by).formula) (2 ^ 64 - 1) }
{
    let found = worth(system, row.by, levels, steps);
    if found < row.value {
        return Err(Reject::Unsupported { row: number, found });
    }
    Ok(())
}

// Whether no row of the system is worth more than its authorizer has.
fn test_closed<L>(system: &System<L>, levels: &[u8], steps: &mut Steps<L>) -> Result<(), Reject>
    requires fit { AreLevels system.now levels.now }
    ensures ok { OnOk result (IsClosed system.now levels.now) }
    ensures err { IfErr result (λ reject. (i : ℕ) × (found : ℕ)
        × (reject ≡ Unclosed i found) × IsUnclosed system.now levels.now i found) }
    ensures ticks { IsWithin (node_total system.now.rows) steps.old steps.new }
{
    for assertion in 0..system.rows() {
        let found = worth(system, assertion, levels, steps);
        if levels[system.authorizer(assertion) as usize] < found {
            return Err(Reject::Unclosed { assertion, found });
        }
    }
    Ok(())
}

// What a row of the system is worth where the levels are these.
fn worth<L>(system: &System<L>, row: u32, levels: &[u8], steps: &mut Steps<L>) -> u8
    requires in_range { row < length system.now.rows }
    requires fit { AreLevels system.now levels.now }
    ensures exact { result ≡ worth_at system.now levels.now row }
    ensures ticks { steps.new ≡ min (steps.old + length (row_at system.now.rows row).formula) (2 ^ 64 - 1) }
{
    system
        .ceiling(row)
        .min(system.form_value(row, levels, steps))
}
