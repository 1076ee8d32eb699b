//! The levels of formulas.
ghost use Rattle.std.specs.Prelude.{◌≡◌, ◌+◌, ◌-◌, ◌^◌, ◌<◌, ◌≤◌, ◌∷◌, [], ℕ, All, length, drop, min, List as ListOf};
ghost use Rattle.kn_base.specs.Threshold.{threshold};
ghost use Rattle.kn_system.specs.Form.{form_levels};
ghost use Rattle.kn_system.specs.Forms.{AreSpelt, AreTallied};
ghost use Rattle.kn_system.specs.LinkedNodes.{node_pieces};

use crate::rows::Piece;
use crate::stored_node::StoredNode;
use kn_base::Steps;

// A count of 0 for each level: there are 64 at most (`MOST_COMPLIANCE_VALUES`).
fn empty_tally() -> [u32; 64]
    ensures none { AreTallied result [] }
    ensures size { length result ≡ 64 }
{
    [0; 64]
}

// The greatest level up to the top that `need` of the tallied levels reach, and 0 where there is none.
fn threshold_of(tally: &[u32; 64], need: u32, top: u8) -> u8
    requires { top < 64 }
    ensures exact { (levels : ListOf ℕ) → AreTallied tally.now levels → All (λ level. level ≤ top) levels
        → result ≡ threshold top need levels }
    ensures low { result ≤ top }
{
    let mut level = top;
    let mut reaching = 0;
    while level > 0 {
        reaching += u64::from(tally[level as usize]);
        if reaching >= u64::from(need) {
            return level;
        }
        level -= 1;
    }
    0
}

/// The level of the formula that begins at a place, and the place behind it. One tick for each of its nodes.
pub(crate) fn level_at<L>(
    nodes: &[StoredNode],
    at: usize,
    top: u8,
    values: &[u8],
    steps: &mut Steps<L>,
) -> (u8, usize)
    requires spelt { AreSpelt (length values.now) (node_pieces nodes.now) }
    requires at_in_range { at < length nodes.now }
    requires top_in_range { top < 64 }
    requires low { All (λ level. level ≤ top) values.now }
    ensures level { form_levels top values.now (drop at (node_pieces nodes.now))
        ≡ result.0 ∷ form_levels top values.now (drop result.1 (node_pieces nodes.now)) }
    ensures low { result.0 ≤ top }
    ensures further { at < result.1 }
    ensures inside { result.1 ≤ length nodes.now }
    ensures ticks { steps.new ≡ min (steps.old + (result.1 - at)) (2 ^ 64 - 1) }
{
    steps.tick();
    match nodes[at].piece() {
        Piece::Who(principal) => (values[principal as usize], at + 1),
        Piece::Gate { need, count } => {
            let mut tally = empty_tally();
            let mut next = at + 1;
            for _part in 0..count {
                let (level, behind) = level_at(nodes, next, top, values, steps);
                tally[level as usize] += 1;
                next = behind;
            }
            (threshold_of(&tally, need, top), next)
        }
    }
}
