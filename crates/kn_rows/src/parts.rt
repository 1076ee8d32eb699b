//! Assertions by their ids, of which a query's system has a row each.
use kn_assert::Assertion;
use kn_proof::Id;
use std::marker::Model;

/// The bytes that the texts of a query's assertions have together at most (keynoted's own). A formula has fewer nodes
/// than its text has bytes, so a query's system has fewer than 2^24.
pub const QUERY_BYTES: usize = 16_777_000;

/// An assertion of a query, by its id.
#[derive(Drop)]
pub struct Part<'a> {
    pub id: Id,
    pub assertion: &'a Assertion,
}

impl<'a> Model for Part<'a> {
    ghost use Rattle.std.specs.Coded.{codes};
    ghost use Rattle.kn_trees.specs.contracts.assertion.Assertion as e;
    ghost use Rattle.kn_meaning.specs.Equations.{Part as AssertionById};

    ghost Value = { AssertionById };

    ghost coded = { Prim.hlevel (codes, e.the_row.coded) };

    ghost view = { λ p. record { id = p.id; assertion = p.assertion.now } };
}

/// The mark of the systems of queries, and of the steps that reading them takes.
#[derive(Drop)]
pub struct Tally;
