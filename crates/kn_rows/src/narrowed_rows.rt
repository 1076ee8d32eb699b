//! Rows for one query alone, in which a principal without a number has the lowest level.
ghost use Rattle.std.specs.Prelude.{◌≡◌, ℕ, ◌+◌, ◌^◌, ◌<◌, ◌≤◌, true, [], ◌∷◌, ◌++◌, length, map, option_map};
ghost use Rattle.std.specs.Prelude.{All, IfOk, IfSome, OnOk};
ghost use Rattle.kn_trees.specs.declared.formula.Formula.TheVariants.{Who};
ghost use Rattle.kn_trees.specs.Formulas.{IsReadable, field_nodes, is_sound};
ghost use Rattle.kn_system.specs.Equations.{node_total};
ghost use Rattle.kn_system.specs.Forms.{IsFormula};
ghost use Rattle.kn_rows.specs.Numbering.{ArePiecesOf, HaveNumbers, SpellLicensees, licensees_pieces};
ghost use Rattle.kn_rows.specs.Extending.{AddsNarrowedRow};
ghost use Rattle.kn_rows.specs.Narrowing.{narrowed_formula};
ghost use Rattle.kn_rows.specs.Spelling.{AddsGate, AddsSpelled, AreSpelled};

use crate::numbered::{Numbered, add_piece};
use kn_assert::{Assertion, Formula};
use kn_base::{List, NoMemory};
use kn_system::Piece;
use std::alloc::Global;

impl Numbered {
    /// Adds the row of an assertion whose authorizer has a number, narrowed to the principals that have one: no other
    /// gets one.
    ///
    /// `NoMemory` comes only when memory runs out, and the value is of no more use then.
    pub fn add_narrowed_row(
        &mut self,
        alloc: Global,
        assertion: &Assertion,
        ceiling: u8,
    ) -> Result<(), NoMemory>
        requires readable { IfSome assertion.now.licensees (λ formula. (bytes : ℕ) × IsReadable bytes formula) }
        requires authorizer { HaveNumbers (assertion.now.authorizer ∷ []) self.old.names }
        requires nodes_fit { node_total self.old.system.rows + (2 + field_nodes assertion.now.licensees) ≤ 2 ^ 24 }
        requires one_each { length self.old.names ≡ length self.old.system.requesters }
        requires ceiling { ceiling < self.old.system.levels }
        ensures ok { OnOk result (AddsNarrowedRow assertion.now ceiling self.old self.new) }
    {
        let authorizer = self.names.find(assertion.authorizer.as_slice()).unwrap();
        let pieces = self.narrowed_licensees(alloc, &assertion.licensees)?;
        self.system.push_row(authorizer, ceiling, &pieces)?;
        Ok(())
    }

    // The pieces of a narrowed Licensees field. A missing one has those of `||` over no parts.
    fn narrowed_licensees(
        &self,
        alloc: Global,
        licensees: &Option<Formula>,
    ) -> Result<List<Piece>, NoMemory>
        requires readable { IfSome licensees.now (λ formula. (bytes : ℕ) × IsReadable bytes formula) }
        ensures pieces { IfOk result (λ pieces. ArePiecesOf self.now.names
            (licensees_pieces (option_map (narrowed_formula self.now.names) licensees.now)) pieces) }
        ensures level { IfOk result (λ pieces. (top : ℕ) → SpellLicensees top self.now.names
            (option_map (narrowed_formula self.now.names) licensees.now) pieces) }
        ensures one_formula { IfOk result (λ pieces. IsFormula (length self.now.names) pieces) }
        ensures short { IfOk result (λ pieces. length pieces ≤ 1 + field_nodes licensees.now) }
    {
        let mut pieces = List::new(alloc);
        match licensees {
            Some(formula) => self.add_narrowed_formula(formula, &mut pieces)?,
            None => add_piece(&mut pieces, Piece::Gate { need: 1, count: 0 })?,
        }
        Ok(pieces)
    }

    // Adds the pieces of a narrowed formula behind others.
    #[cycle(narrowed_formula)]
    fn add_narrowed_formula(
        &self,
        formula: &Formula,
        pieces: &mut List<Piece>,
    ) -> Result<(), NoMemory>
        requires sound { is_sound formula.now ≡ true }
        ensures { OnOk result (AddsSpelled self.now.names (narrowed_formula self.now.names formula.now ∷ [])
            pieces.old pieces.new) }
    {
        match formula {
            Formula::Who(name) => add_piece(pieces, self.narrowed_leaf(name.as_slice())),
            Formula::All(parts) => self.add_narrowed_gate(parts.len(), parts, pieces),
            Formula::Any(parts) => self.add_narrowed_gate(1, parts, pieces),
            Formula::Threshold { need, list } => self.add_narrowed_gate(*need, list, pieces),
        }
    }

    // Adds a gate and the pieces of its narrowed parts behind others.
    #[cycle(narrowed_formula)]
    fn add_narrowed_gate(
        &self,
        need: u32,
        parts: &List<Formula>,
        pieces: &mut List<Piece>,
    ) -> Result<(), NoMemory>
        requires sound { All (λ part. is_sound part ≡ true) parts.now }
        ensures { OnOk result (AddsGate self.now.names need (map (narrowed_formula self.now.names) parts.now)
            pieces.old pieces.new) }
    {
        let count = parts.len();
        add_piece(pieces, Piece::Gate { need, count })?;
        for part in parts.as_slice() {
            self.add_narrowed_formula(part, pieces)?;
        }
        Ok(())
    }

    // The piece of a principal, and for one without a number that of `||` over no parts.
    fn narrowed_leaf(&self, name: &[u8]) -> Piece
        ensures { AreSpelled self.now.names (narrowed_formula self.now.names (Who name.now) ∷ []) (result ∷ []) }
    {
        match self.names.find(name) {
            Some(number) => Piece::Who(number),
            None => Piece::Gate { need: 1, count: 0 },
        }
    }
}
