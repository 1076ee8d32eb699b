//! The system of a query: its equations over numbered principals.
ghost use Rattle.std.specs.Prelude.{◌≡◌, ◌+◌, ◌-◌, ◌^◌, ◌<◌, ◌≤◌, [], ◌∷◌, ◌++◌, ℕ, Some};
ghost use Rattle.std.specs.Prelude.{All, IfOk, OnErr, false, length, min, slice_get, slice_index_or, take};
ghost use Rattle.kn_base.specs.declared.limits.TheConstants.{FEWEST_COMPLIANCE_VALUES, MOST_COMPLIANCE_VALUES};

use crate::formula::level_at;
use crate::node_table::NodeTable;
use crate::nodes::Node;
use crate::rows::{Piece, StoredRow};
use crate::stored_node::StoredNode;
use kn_base::{List, NoMemory, Steps};
use std::alloc::Global;
use std::marker::Model;

/// A query over numbered principals: how many levels it has, which principals are requesters, and the rows.
///
/// Principal 0 is `POLICY`, which is no requester. The mark is that of the steps that reading a formula
/// takes, and never comes out again.
#[derive(Drop)]
pub struct System<L> {
    mark: L,
    levels: u8,
    // Which of the principals from 1 on are requesters.
    others: List<bool>,
    rows: List<StoredRow>,
    flat: NodeTable,
}

impl<L> Model for System<L> {
    ghost use Rattle.std.specs.Prelude.{◌∷◌, false};
    ghost use Rattle.kn_system.specs.Equations.{SystemEquations, IsSystem};
    ghost use Rattle.kn_system.specs.KeptRows.{AreKept, kept_rows};

    ghost Value = { SystemEquations };

    ghost view = { λ s. record {
      levels = s.levels;
      requesters = false ∷ s.others;
      rows = kept_rows s.flat.pieces s.rows;
    } };

    ghost invariant = { λ s.
        IsSystem (record { levels = s.levels; requesters = false ∷ s.others; rows = kept_rows s.flat.pieces s.rows })
        × AreKept s.rows s.flat };
}

impl<L> System<L> {
    ghost use Rattle.kn_system.specs.Equations.{IsRowOver, IsSystemRow, IsSystem, row_at, node_total, leaf_total};
    ghost use Rattle.kn_system.specs.Equations.{with_row_ceiling};
    ghost use Rattle.kn_system.specs.Form.{form_level};
    ghost use Rattle.kn_system.specs.Forms.{IsFormula};
    ghost use Rattle.kn_system.specs.Lawful.{AreLevels};
    ghost use Rattle.kn_system.specs.Least.{at_first};
    ghost use Rattle.kn_system.specs.LinkedNodes.{node_pieces};
    ghost use Rattle.kn_system.specs.Nodes.{pieces_of, sort_of, ups_of_rows, use_before_at, uses_of};
    ghost use Rattle.kn_system.specs.declared.nodes.Up.TheVariants.{Row};
    ghost use Rattle.kn_system.specs.declared.rows.Piece.TheVariants.{Who};

    /// The system of `POLICY` alone, without rows.
    pub fn start(alloc: Global, mark: L, levels: u8) -> System<L>
        requires at_least_two { FEWEST_COMPLIANCE_VALUES ≤ levels }
        requires at_most { levels ≤ MOST_COMPLIANCE_VALUES }
        ensures { result ≡ record { levels = levels; requesters = false ∷ []; rows = [] } }
    {
        System {
            mark,
            levels,
            others: List::new(alloc),
            rows: List::new(alloc),
            flat: NodeTable::new(alloc),
        }
    }

    /// Adds a principal, and gives its number.
    pub fn push_principal(&mut self, requester: bool) -> Result<u32, NoMemory>
        requires { length self.old.requesters < 2 ^ 24 }
        ensures number { IfOk result (λ number. number ≡ length self.old.requesters) }
        ensures ok { IfOk result (λ _. self.new ≡ record self.old {
          requesters = self.old.requesters ++ requester ∷ [];
        }) }
        ensures err { OnErr result (self.new ≡ self.old) }
    {
        let number = self.principals();
        match self.others.push(requester) {
            Ok(()) => Ok(number),
            Err(_) => Err(NoMemory),
        }
    }

    /// Adds a row, and gives its number. `&&` of n parts is a gate of need n, `||` is one of need 1, and no
    /// formula is a gate of need 1 over none.
    pub fn push_row(
        &mut self,
        authorizer: u32,
        ceiling: u8,
        formula: &List<Piece>,
    ) -> Result<u32, NoMemory>
        requires authorizer_in_range { authorizer < length self.old.requesters }
        requires ceiling_in_range { ceiling < self.old.levels }
        requires one_formula { IsFormula (length self.old.requesters) formula.now }
        requires nodes_fit { node_total self.old.rows + length formula.now < 2 ^ 24 }
        ensures number { IfOk result (λ number. number ≡ length self.old.rows) }
        ensures ok { IfOk result (λ _. self.new ≡ record self.old {
          rows = self.old.rows
              ++ (record { authorizer = authorizer; ceiling = ceiling; formula = formula.now }) ∷ [];
        }) }
        ensures err { OnErr result (self.new ≡ self.old) }
    {
        let number = self.rows.len();
        let start = self.flat.len();
        self.flat.add(formula.as_slice(), number)?;
        let row = StoredRow {
            authorizer,
            ceiling,
            start,
            size: formula.len(),
        };
        match self.rows.push(row) {
            Ok(()) => Ok(number),
            Err(_) => {
                self.flat.shorten(start);
                Err(NoMemory)
            }
        }
    }

    /// Gives a row another ceiling, and answers the one that it had. Takes no memory.
    pub fn set_ceiling(&mut self, row: u32, ceiling: u8) -> u8
        requires row_in_range { row < length self.old.rows }
        requires ceiling_in_range { ceiling < self.old.levels }
        ensures former { result ≡ (row_at self.old.rows row).ceiling }
        ensures ok { self.new ≡ record self.old { rows = with_row_ceiling self.old.rows row ceiling } }
    {
        let former = self.rows.as_slice()[row as usize];
        let _former = self.rows.replace(row, StoredRow { ceiling, ..former });
        former.ceiling
    }

    // Takes the last row away.
    fn pop_row(&mut self)
        requires { 0 < length self.old.rows }
        ensures { self.new ≡ record self.old { rows = take (length self.old.rows - 1) self.old.rows } }
    {
        match self.rows.pop() {
            Some(row) => self.flat.shorten(row.start),
            None => {}
        }
    }

    /// Keeps the first of the rows alone. Takes no memory.
    pub fn shorten_rows(&mut self, rows: u32)
        requires { rows ≤ length self.old.rows }
        ensures { self.new ≡ record self.old { rows = take rows self.old.rows } }
    {
        for _row in rows..self.rows() {
            self.pop_row();
        }
    }

    // Takes the last principal away, whom no row names.
    fn pop_principal(&mut self)
        requires some { 1 < length self.old.requesters }
        requires over_others { All (IsRowOver (length self.old.requesters - 1)) self.old.rows }
        ensures { self.new ≡ record self.old {
          requesters = take (length self.old.requesters - 1) self.old.requesters;
        } }
    {
        let _last = self.others.pop();
    }

    /// Keeps the first of the principals alone, of whom the rows are. Takes no memory.
    pub fn shorten_principals(&mut self, principals: u32)
        requires some { 0 < principals }
        requires in_range { principals ≤ length self.old.requesters }
        requires over_them { All (IsRowOver principals) self.old.rows }
        ensures { self.new ≡ record self.old { requesters = take principals self.old.requesters } }
    {
        for _principal in principals..self.principals() {
            self.pop_principal();
        }
    }

    /// The number of principals.
    pub fn principals(&self) -> u32
        ensures exact { result ≡ length self.now.requesters }
    {
        self.others.len() + 1
    }

    /// The number of rows.
    pub fn rows(&self) -> u32
        ensures { result ≡ length self.now.rows }
    {
        self.rows.len()
    }

    /// The number of nodes of the formulas together, principals and gates.
    pub fn nodes(&self) -> u32
        ensures { result ≡ node_total self.now.rows }
    {
        self.flat.len()
    }

    /// The number of principals' places in the formulas together.
    pub fn uses_total(&self) -> u32
        ensures { result ≡ leaf_total self.now.rows }
    {
        self.flat.leaves()
    }

    /// The number of levels.
    pub fn levels(&self) -> u8
        ensures exact { result ≡ self.now.levels }
        ensures well_formed { IsSystem self.now }
    {
        self.levels
    }

    /// Whether the principal of this number requests. `POLICY`, which is 0, never does.
    pub fn is_requester(&self, principal: u32) -> bool
        requires { principal < length self.now.requesters }
        ensures { result ≡ slice_index_or self.now.requesters principal false }
    {
        let others = self.others.as_slice();
        principal > 0 && others[principal as usize - 1]
    }

    /// Puts the levels before any row into `values`: requesters have the top, and all others 0.
    pub fn first_levels(&self, values: &mut [u8])
        requires one_each { length values.old ≡ length self.now.requesters }
        ensures exact { values.new ≡ at_first self.now }
        ensures fit { AreLevels self.now values.new }
        ensures well_formed { IsSystem self.now }
    {
        for principal in 0..self.principals() {
            values[principal as usize] = if self.is_requester(principal) {
                self.levels - 1
            } else {
                0
            };
        }
    }

    /// The principal whose row this is.
    pub fn authorizer(&self, row: u32) -> u32
        requires { row < length self.now.rows }
        ensures exact { result ≡ (row_at self.now.rows row).authorizer }
        ensures in_range { result < length self.now.requesters }
    {
        self.stored_row(row).authorizer
    }

    /// The highest level that the row gives.
    pub fn ceiling(&self, row: u32) -> u8
        requires { row < length self.now.rows }
        ensures exact { result ≡ (row_at self.now.rows row).ceiling }
        ensures in_range { result < self.now.levels }
    {
        self.stored_row(row).ceiling
    }

    /// The level of the row's formula where each principal has the level that `values` gives it. One tick
    /// for each node of the formula.
    pub fn form_value(&self, row: u32, values: &[u8], steps: &mut Steps<L>) -> u8
        requires row_in_range { row < length self.now.rows }
        requires one_each { length values.now ≡ length self.now.requesters }
        requires levels_in_range { All (λ level. level < self.now.levels) values.now }
        ensures exact { result
            ≡ form_level (self.now.levels - 1) values.now (row_at self.now.rows row).formula }
        ensures in_range { result < self.now.levels }
        ensures ticks { steps.new ≡ min (steps.old + length (row_at self.now.rows row).formula) (2 ^ 64 - 1) }
    {
        level_at(self.formula(row), 0, self.levels - 1, values, steps).0
    }

    fn stored_row(&self, row: u32) -> &StoredRow
        requires { row < length self.now.rows }
        ensures authorizer { result.now.authorizer ≡ (row_at self.now.rows row).authorizer }
        ensures ceiling { result.now.ceiling ≡ (row_at self.now.rows row).ceiling }
        ensures fits { IsSystemRow self.now.levels (length self.now.requesters) (row_at self.now.rows row) }
    {
        &self.rows.as_slice()[row as usize]
    }

    // The nodes of a row's formula.
    fn formula(&self, row: u32) -> &[StoredNode]
        requires in_range { row < length self.now.rows }
        ensures exact { node_pieces result.now ≡ (row_at self.now.rows row).formula }
        ensures well_formed { IsSystem self.now }
    {
        let stored = self.rows.as_slice()[row as usize];
        self.flat.nodes(stored.start, stored.size)
    }

    /// The last node that is the principal, or None where none is. One tick.
    pub fn last_use(&self, principal: u32, steps: &mut Steps<L>) -> Option<u32>
        requires { principal < length self.now.requesters }
        ensures exact { result ≡ use_before_at (uses_of principal (pieces_of self.now.rows))
            (length (uses_of principal (pieces_of self.now.rows))) }
        ensures ticks { steps.new ≡ min (steps.old + 1) (2 ^ 64 - 1) }
    {
        steps.tick();
        self.flat.last_use(principal)
    }

    /// The use of the same principal before this node, or None where it is the first one. One tick.
    pub fn use_before(&self, node: u32, steps: &mut Steps<L>) -> Option<u32>
        requires { node < node_total self.now.rows }
        ensures exact { (principal k : ℕ) → slice_get (uses_of principal (pieces_of self.now.rows)) k ≡ Some node
            → result ≡ use_before_at (uses_of principal (pieces_of self.now.rows)) k }
        ensures ticks { steps.new ≡ min (steps.old + 1) (2 ^ 64 - 1) }
    {
        steps.tick();
        self.flat.use_before(node)
    }

    /// What a node is and what it is a part of. One tick.
    pub fn node(&self, i: u32, steps: &mut Steps<L>) -> Node
        requires { i < node_total self.now.rows }
        ensures sort { result.sort ≡ sort_of (slice_index_or (pieces_of self.now.rows) i (Who 0)) }
        ensures up { result.up ≡ slice_index_or (ups_of_rows self.now.rows) i (Row 0) }
        ensures ticks { steps.new ≡ min (steps.old + 1) (2 ^ 64 - 1) }
    {
        steps.tick();
        self.flat.node(i)
    }
}
