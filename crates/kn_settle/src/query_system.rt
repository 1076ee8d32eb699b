//! A base with the requesters and the ceilings of one query.
ghost use Rattle.std.specs.Prelude.{◌≡◌, ◌+◌, ◌-◌, ◌^◌, ◌<◌, ◌≤◌};
ghost use Rattle.std.specs.Prelude.{All, IfOk, Some, length, min, slice_get, slice_index, slice_index_or, ℕ};
ghost use Rattle.kn_base.specs.declared.limits.TheConstants.{FEWEST_COMPLIANCE_VALUES, MOST_COMPLIANCE_VALUES};
ghost use Rattle.kn_settle.specs.QuerySystem.{query_system, IsOther};
ghost use Rattle.kn_system.specs.Equations.{IsSystem, node_total, row_at};
ghost use Rattle.kn_system.specs.Nodes.{pieces_of, sort_of, ups_of_rows, use_before_at, uses_of};
ghost use Rattle.kn_system.specs.declared.nodes.Up.TheVariants.{Row};
ghost use Rattle.kn_system.specs.declared.rows.Piece.TheVariants.{Who};

use crate::ceilings::Ceilings;
use kn_base::{NoMemory, Steps};
use kn_system::{Node, System};
use std::marker::Model;

/// A base, seen as the system that it is with these requesters and ceilings in place of its own.
#[derive(Drop)]
pub(crate) struct QuerySystem<'a, L, C: Ceilings<L>> {
    base: &'a System<L>,
    levels: u8,
    requesters: &'a [u32],
    ceilings: &'a C,
}

impl<'a, L, C: Ceilings<L>> Model for QuerySystem<'a, L, C> {
    ghost use Rattle.std.specs.Prelude.{◌≡◌, length};
    ghost use Rattle.kn_system.specs.Equations.{SystemEquations, IsSystem};
    ghost use Rattle.kn_settle.specs.QuerySystem.{query_system};

    ghost Value = { SystemEquations };

    ghost view = { λ a. query_system a.base.now a.levels a.requesters.now (C.each a.ceilings.now) };

    ghost invariant = { λ a. IsSystem (query_system a.base.now a.levels a.requesters.now (C.each a.ceilings.now))
        × (length (C.each a.ceilings.now) ≡ length a.base.now.rows) };
}

impl<'a, L, C: Ceilings<L>> QuerySystem<'a, L, C> {
    pub(crate) fn of(
        base: &'a System<L>,
        levels: u8,
        requesters: &'a [u32],
        ceilings: &'a C,
    ) -> QuerySystem<'a, L, C>
        requires at_least_two { FEWEST_COMPLIANCE_VALUES ≤ levels }
        requires at_most { levels ≤ MOST_COMPLIANCE_VALUES }
        requires others { All (IsOther (length base.now.requesters)) requesters.now }
        requires one_each { length (C.each ceilings.now) ≡ length base.now.rows }
        requires low { All (λ ceiling. ceiling < levels) (C.each ceilings.now) }
        ensures { result ≡ query_system base.now levels requesters.now (C.each ceilings.now) }
    {
        // The contract of `levels` says that the base is well formed.
        let _levels = base.levels();
        QuerySystem {
            base,
            levels,
            requesters,
            ceilings,
        }
    }

    /// The number of levels.
    pub(crate) fn levels(&self) -> u8
        ensures exact { result ≡ self.now.levels }
        ensures well_formed { IsSystem self.now }
    {
        self.levels
    }

    /// The principal whose row this is.
    pub(crate) fn authorizer(&self, row: u32) -> u32
        requires { row < length self.now.rows }
        ensures exact { result ≡ (row_at self.now.rows row).authorizer }
        ensures in_range { result < length self.now.requesters }
    {
        self.base.authorizer(row)
    }

    /// The highest level that the row gives. One tick.
    pub(crate) fn ceiling(&self, row: u32, steps: &mut Steps<L>) -> Result<u8, NoMemory>
        requires { row < length self.now.rows }
        ensures exact { IfOk result (λ ceiling. ceiling ≡ (row_at self.now.rows row).ceiling) }
        ensures ticks { steps.new ≡ min (steps.old + 1) (2 ^ 64 - 1) }
    {
        self.ceilings.ceiling(row, steps)
    }

    /// The last node that is the principal, or None where none is. One tick.
    pub(crate) fn last_use(&self, principal: u32, steps: &mut Steps<L>) -> Option<u32>
        requires { principal < length self.now.requesters }
        ensures exact { result ≡ use_before_at (uses_of principal (pieces_of self.now.rows))
            (length (uses_of principal (pieces_of self.now.rows))) }
        ensures ticks { steps.new ≡ min (steps.old + 1) (2 ^ 64 - 1) }
    {
        self.base.last_use(principal, steps)
    }

    /// The use of the same principal before this node, or None where it is the first one. One tick.
    pub(crate) fn use_before(&self, node: u32, steps: &mut Steps<L>) -> Option<u32>
        requires { node < node_total self.now.rows }
        ensures exact { (principal k : ℕ) → slice_get (uses_of principal (pieces_of self.now.rows)) k ≡ Some node
            → result ≡ use_before_at (uses_of principal (pieces_of self.now.rows)) k }
        ensures ticks { steps.new ≡ min (steps.old + 1) (2 ^ 64 - 1) }
    {
        self.base.use_before(node, steps)
    }

    /// What a node is and what it is a part of. One tick.
    pub(crate) fn node(&self, i: u32, steps: &mut Steps<L>) -> Node
        requires { i < node_total self.now.rows }
        ensures sort { result.sort ≡ sort_of (slice_index_or (pieces_of self.now.rows) i (Who 0)) }
        ensures up { result.up ≡ slice_index_or (ups_of_rows self.now.rows) i (Row 0) }
        ensures ticks { steps.new ≡ min (steps.old + 1) (2 ^ 64 - 1) }
    {
        self.base.node(i, steps)
    }
}
