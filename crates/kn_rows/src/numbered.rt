//! Principals by numbers, and rows over them.
ghost use Rattle.std.specs.Prelude.{◌≡◌, ℕ, ◌+◌, ◌-◌, ◌^◌, ◌<◌, ◌≤◌, false, true, [], ◌∷◌, ◌++◌, List as ListOf};
ghost use Rattle.std.specs.Prelude.{All, flat_map, length, map, IfOk, IfSome, OnErr, OnOk};
ghost use Rattle.std.specs.List.{list_any};
ghost use Rattle.std.specs.Str.{bytes_eq};
ghost use Rattle.kn_cond.specs.Programs.{field_value as field_value_of};
ghost use Rattle.kn_principal.specs.Principals.{policy};
ghost use Rattle.kn_meaning.specs.Equations.{Equations, Part as AssertionById, equations_over, statement_of};
ghost use Rattle.kn_meaning.specs.Occurring.{occurring, formula_names, licensees_names, statement_names};
ghost use Rattle.kn_system.specs.Equations.{node_total};
ghost use Rattle.kn_system.specs.Forms.{IsFormula};
ghost use Rattle.kn_rows.specs.Numbering.{IsNumber, IsAbsent, ArePiecesOf, AreNamesOf, AreNumbered, HaveNumbers};
ghost use Rattle.kn_rows.specs.Numbering.{IsSystemOf, SpellLicensees, licensees_pieces, with_name, with_names};
ghost use Rattle.kn_rows.specs.BaseRows.{AreNumbersOf, IsBaseOf};
ghost use Rattle.kn_rows.specs.Extending.{AddsNames, AddsRow, Extends, AddsRequester, with_statement};
ghost use Rattle.kn_rows.specs.Spelling.{AddsSpelled, AddsGate};
ghost use Rattle.kn_rows.specs.Sizes.{IsReadablePart, size_of, total_size};
ghost use Rattle.kn_trees.specs.Formulas.{IsReadable, field_nodes, formula_nodes, is_sound, total};

use crate::parts::{Part, Tally};
use kn_assert::{Assertion, Formula};
use kn_base::{List, NoMemory, Octets};
use kn_cond::field_value;
use kn_env::{Env, Query};
use kn_names::Names;
use kn_principal::POLICY;
use kn_system::{Piece, System};
use std::alloc::Global;

/// Principals with their numbers, and a system over these numbers.
#[derive(Drop)]
pub struct Numbered {
    /// The names of the principals, each at its number.
    pub names: Names,
    /// The system, with as many principals as there are names.
    pub system: System<Tally>,
}

/// The system of a query: its principals by numbers, and a row for each assertion.
///
/// `NoMemory` comes only when memory runs out.
pub fn numbered_query(
    alloc: Global,
    list: &List<Part<'_>>,
    query: &Query<'_>,
) -> Result<Numbered, NoMemory>
    requires readable { All IsReadablePart list.now }
    requires small { 65 + total_size list.now < 2 ^ 24 }
    ensures system { IfOk result (λ numbered.
        IsSystemOf (equations_over query.now list.now) numbered.names numbered.system) }
    ensures principals { IfOk result (λ numbered.
        AreNamesOf (occurring (equations_over query.now list.now)) numbered.names) }
    ensures levels { IfOk result (λ numbered. numbered.system.levels ≡ length query.now.values) }
{
    let mut numbered = Numbered::of_policy(alloc, query.values().len())?;
    numbered.add_requesters(query.requesters())?;
    numbered.add_statements(alloc, list, query)?;
    Ok(numbered)
}

// After an `Err` of which no clause says what stays, the value is of no more use.
impl Numbered {
    /// The policy alone, which has number 0, in a system of so many compliance values.
    ///
    /// `NoMemory` comes only when memory runs out.
    pub fn of_policy(alloc: Global, values: u8) -> Result<Numbered, NoMemory>
        requires at_least_two { 2 ≤ values }
        requires at_most { values ≤ 64 }
        ensures names { IfOk result (λ numbered. numbered.names ≡ policy ∷ []) }
        ensures system { IfOk result (λ numbered. numbered.system
            ≡ record { levels = values; requesters = false ∷ []; rows = [] }) }
    {
        let mut names = Names::new(alloc);
        names.push(POLICY)?;
        Ok(Numbered {
            names,
            system: System::start(alloc, Tally, values),
        })
    }

    fn add(&mut self, name: &[u8], requester: bool) -> Result<u32, NoMemory>
        requires few { length self.old.names < 2 ^ 24 }
        requires one_each { length self.old.names ≡ length self.old.system.requesters }
        requires absent { IsAbsent self.old.names name.now }
        ensures number { IfOk result (λ number. number ≡ length self.old.names) }
        ensures names { OnOk result (self.new.names ≡ self.old.names ++ name.now ∷ []) }
        ensures system { OnOk result (self.new.system
            ≡ record self.old.system { requesters = self.old.system.requesters ++ requester ∷ [] }) }
        ensures err_names { OnErr result (self.new.names ≡ self.old.names) }
        ensures err_system { OnErr result (self.new.system ≡ self.old.system) }
    {
        self.names.push(name)?;
        match self.system.push_principal(requester) {
            Ok(number) => Ok(number),
            Err(_) => {
                self.names.shorten(self.system.principals());
                Err(NoMemory)
            }
        }
    }

    // A system can't make a principal a requester later, so requesters get their numbers before others.
    fn add_requester(&mut self, name: &[u8]) -> Result<(), NoMemory>
        requires few { length self.old.names < 2 ^ 24 }
        requires one_each { length self.old.names ≡ length self.old.system.requesters }
        ensures { OnOk result (AddsRequester name.now self.old self.new) }
    {
        match self.names.find(name) {
            Some(_) => Ok(()),
            None => {
                self.add(name, true)?;
                Ok(())
            }
        }
    }

    /// The number of a principal, which gets one here where it has none yet.
    ///
    /// `NoMemory` comes only when memory runs out, and leaves the value as it was.
    pub fn number(&mut self, name: &[u8]) -> Result<u32, NoMemory>
        requires few { length (with_name self.old.names name.now) ≤ 2 ^ 24 }
        requires one_each { length self.old.names ≡ length self.old.system.requesters }
        ensures number { IfOk result (λ number. IsNumber self.new.names name.now number) }
        ensures entered { OnOk result (self.new.names ≡ with_name self.old.names name.now) }
        ensures ok { OnOk result (Extends 1 (name.now ∷ []) self.old self.new) }
        ensures err_names { OnErr result (self.new.names ≡ self.old.names) }
        ensures err_system { OnErr result (self.new.system ≡ self.old.system) }
    {
        match self.names.find(name) {
            Some(number) => Ok(number),
            None => self.add(name, false),
        }
    }

    fn add_requesters(&mut self, requesters: &List<Octets>) -> Result<(), NoMemory>
        requires few { length self.old.names + length requesters.now ≤ 2 ^ 24 }
        requires numbered { AreNumbered requesters.now self.old.names self.old.system.requesters }
        ensures names { OnOk result (length self.new.names ≤ length self.old.names + length requesters.now) }
        ensures numbered { OnOk result (AreNumbered requesters.now self.new.names self.new.system.requesters) }
        ensures principals { OnOk result (AddsNames requesters.now self.old.names self.new.names) }
        ensures levels { OnOk result (self.new.system.levels ≡ self.old.system.levels) }
        ensures rows { OnOk result (self.new.system.rows ≡ self.old.system.rows) }
    {
        for requester in requesters.as_slice() {
            self.add_requester(requester.as_slice())?;
        }
        Ok(())
    }

    fn add_statements(
        &mut self,
        alloc: Global,
        list: &List<Part<'_>>,
        query: &Query<'_>,
    ) -> Result<(), NoMemory>
        requires readable { All IsReadablePart list.now }
        requires names_fit { length self.old.names + total_size list.now ≤ 2 ^ 24 }
        requires nodes_fit { node_total self.old.system.rows + total_size list.now ≤ 2 ^ 24 }
        requires one_each { length self.old.names ≡ length self.old.system.requesters }
        requires at_least_two { 2 ≤ length query.now.values }
        requires levels { self.old.system.levels ≡ length query.now.values }
        ensures system { OnOk result (IsSystemOf (equations_over query.now []) self.old.names self.old.system
            → IsSystemOf (equations_over query.now list.now) self.new.names self.new.system) }
        ensures principals { OnOk result (AddsNames (flat_map statement_names (map (statement_of query.now) list.now))
            self.old.names self.new.names) }
        ensures levels { OnOk result (self.new.system.levels ≡ self.old.system.levels) }
    {
        for part in list.as_slice() {
            self.add_statement(alloc, part, query)?;
        }
        Ok(())
    }

    fn add_statement(
        &mut self,
        alloc: Global,
        part: &Part<'_>,
        query: &Query<'_>,
    ) -> Result<(), NoMemory>
        requires readable { IsReadablePart part.now }
        requires names_fit { length self.old.names + size_of part.now ≤ 2 ^ 24 }
        requires nodes_fit { node_total self.old.system.rows + size_of part.now ≤ 2 ^ 24 }
        requires one_each { length self.old.names ≡ length self.old.system.requesters }
        requires at_least_two { 2 ≤ length query.now.values }
        requires levels { self.old.system.levels ≡ length query.now.values }
        ensures names { OnOk result (length self.new.names ≤ length self.old.names + size_of part.now) }
        ensures nodes { OnOk result (node_total self.new.system.rows
            ≤ node_total self.old.system.rows + size_of part.now) }
        ensures one_each { OnOk result (length self.new.names ≡ length self.new.system.requesters) }
        ensures levels { OnOk result (self.new.system.levels ≡ self.old.system.levels) }
        ensures system { OnOk result ((e : Equations) → IsSystemOf e self.old.names self.old.system
            → IsSystemOf (with_statement e (statement_of query.now part.now)) self.new.names self.new.system) }
        ensures principals { OnOk result (AddsNames (statement_names (statement_of query.now part.now))
            self.old.names self.new.names) }
    {
        let assertion = part.assertion;
        let ceiling = ceiling_of(alloc, query, assertion)?;
        self.add_row(alloc, assertion, ceiling)?;
        Ok(())
    }

    /// Adds the row of an assertion with this ceiling. Those of its principals who have no number yet get one.
    ///
    /// `NoMemory` comes only when memory runs out, and the value is of no more use then.
    pub fn add_row(
        &mut self,
        alloc: Global,
        assertion: &Assertion,
        ceiling: u8,
    ) -> Result<(), NoMemory>
        requires readable { IfSome assertion.now.licensees (λ formula. (bytes : ℕ) × IsReadable bytes formula) }
        requires names_fit { length self.old.names + (2 + field_nodes assertion.now.licensees) ≤ 2 ^ 24 }
        requires nodes_fit { node_total self.old.system.rows + (2 + field_nodes assertion.now.licensees) ≤ 2 ^ 24 }
        requires one_each { length self.old.names ≡ length self.old.system.requesters }
        requires ceiling { ceiling < self.old.system.levels }
        ensures ok { OnOk result (AddsRow assertion.now ceiling self.old self.new) }
    {
        let authorizer = self.number(assertion.authorizer.as_slice())?;
        let pieces = self.licensees(alloc, &assertion.licensees)?;
        self.system.push_row(authorizer, ceiling, &pieces)?;
        Ok(())
    }

    /// The numbers of principals, of whom those get one here who have none yet.
    ///
    /// `NoMemory` comes only when memory runs out. Some of them may have got numbers then, and the rows are as before.
    pub fn numbers(
        &mut self,
        alloc: Global,
        principals: &List<Octets>,
    ) -> Result<List<u32>, NoMemory>
        requires few { length (with_names self.old.names principals.now) ≤ 2 ^ 24 }
        requires one_each { length self.old.names ≡ length self.old.system.requesters }
        ensures numbers { IfOk result (λ numbers. AreNumbersOf self.new.names principals.now numbers) }
        ensures base { (parts : ListOf AssertionById) → IsBaseOf parts self.old.names self.old.system
            → IsBaseOf parts self.new.names self.new.system }
        ensures rows { self.new.system.rows ≡ self.old.system.rows }
        ensures one_each { length self.new.names ≡ length self.new.system.requesters }
        ensures entered { OnOk result (self.new.names ≡ with_names self.old.names principals.now) }
        ensures again { with_names self.new.names principals.now ≡ with_names self.old.names principals.now }
        ensures names { length self.new.names ≤ length self.old.names + length principals.now }
    {
        let mut numbers = List::new(alloc);
        for principal in principals.as_slice() {
            let number = self.number(principal.as_slice())?;
            numbers.add(number)?;
        }
        Ok(numbers)
    }

    // The pieces of a Licensees field. A missing one has those of `||` over no parts.
    fn licensees(
        &mut self,
        alloc: Global,
        licensees: &Option<Formula>,
    ) -> Result<List<Piece>, NoMemory>
        requires readable { IfSome licensees.now (λ formula. (bytes : ℕ) × IsReadable bytes formula) }
        requires few { length self.old.names + field_nodes licensees.now ≤ 2 ^ 24 }
        requires one_each { length self.old.names ≡ length self.old.system.requesters }
        ensures ok { OnOk result (Extends (field_nodes licensees.now) (licensees_names licensees.now)
            self.old self.new) }
        ensures pieces { IfOk result (λ pieces. ArePiecesOf self.new.names (licensees_pieces licensees.now) pieces) }
        ensures level { IfOk result (λ pieces. (top : ℕ) → SpellLicensees top self.new.names licensees.now pieces) }
        ensures one_formula { IfOk result (λ pieces. IsFormula (length self.new.names) pieces) }
        ensures short { IfOk result (λ pieces. length pieces ≤ 1 + field_nodes licensees.now) }
    {
        let mut pieces = List::new(alloc);
        match licensees {
            Some(formula) => self.add_formula(formula, &mut pieces)?,
            None => add_piece(&mut pieces, Piece::Gate { need: 1, count: 0 })?,
        }
        Ok(pieces)
    }

    // Adds the pieces of a formula behind others.
    #[cycle(formula)]
    fn add_formula(&mut self, formula: &Formula, pieces: &mut List<Piece>) -> Result<(), NoMemory>
        requires sound { is_sound formula.now ≡ true }
        requires few { length self.old.names + formula_nodes formula.now ≤ 2 ^ 24 }
        requires one_each { length self.old.names ≡ length self.old.system.requesters }
        ensures grown { OnOk result (Extends (formula_nodes formula.now) (formula_names formula.now)
            self.old self.new) }
        ensures spelled { OnOk result (AddsSpelled self.new.names (formula.now ∷ []) pieces.old pieces.new) }
    {
        match formula {
            Formula::Who(name) => {
                let number = self.number(name.as_slice())?;
                add_piece(pieces, Piece::Who(number))
            }
            Formula::All(parts) => self.add_gate(parts.len(), parts, pieces),
            Formula::Any(parts) => self.add_gate(1, parts, pieces),
            Formula::Threshold { need, list } => self.add_gate(*need, list, pieces),
        }
    }

    // Adds a gate and the pieces of its parts behind others.
    #[cycle(formula)]
    fn add_gate(
        &mut self,
        need: u32,
        parts: &List<Formula>,
        pieces: &mut List<Piece>,
    ) -> Result<(), NoMemory>
        requires need { 1 ≤ need }
        requires sound { All (λ part. is_sound part ≡ true) parts.now }
        requires few { length self.old.names + total (map formula_nodes parts.now) ≤ 2 ^ 24 }
        requires one_each { length self.old.names ≡ length self.old.system.requesters }
        ensures grown { OnOk result (Extends (total (map formula_nodes parts.now)) (flat_map formula_names parts.now)
            self.old self.new) }
        ensures spelled { OnOk result (AddsGate self.new.names need parts.now pieces.old pieces.new) }
    {
        let count = parts.len();
        add_piece(pieces, Piece::Gate { need, count })?;
        for part in parts.as_slice() {
            self.add_formula(part, pieces)?;
        }
        Ok(())
    }
}

/// The value of an assertion's conditions in a query.
///
/// `NoMemory` comes only when memory runs out.
pub fn ceiling_of(alloc: Global, query: &Query<'_>, assertion: &Assertion) -> Result<u8, NoMemory>
    requires at_least_two { 2 ≤ length query.now.values }
    ensures value { IfOk result (λ ceiling. ceiling
        ≡ field_value_of (record { asked = query.now; constants = assertion.now.constants }) assertion.now.conditions) }
    ensures at_most_top { IfOk result (λ ceiling. ceiling ≤ length query.now.values - 1) }
{
    let env = Env::of(query, &assertion.constants);
    field_value(alloc, &assertion.conditions, &env)
}

pub(super) fn add_piece(pieces: &mut List<Piece>, piece: Piece) -> Result<(), NoMemory>
    ensures { OnOk result (pieces.new ≡ pieces.old ++ piece ∷ []) }
{
    match pieces.push(piece) {
        Ok(()) => Ok(()),
        Err(_) => Err(NoMemory),
    }
}
