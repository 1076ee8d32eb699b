//! Conditions programs as trees.
use crate::flat_expr::FlatExpr;
use kn_base::{Boxed, List, Octets};

/// A conditions program (RFC 2704, section 4, the Conditions field): its clauses but for the empty ones.
#[derive(Drop)]
#[cycle(program)]
pub struct Program {
    pub clauses: List<Clause>,
}

/// A clause of a program.
#[derive(Drop)]
#[cycle(program)]
pub struct Clause {
    pub test: FlatExpr,
    pub then: Then,
}

/// What a clause is worth where its test is true.
#[derive(Drop)]
#[cycle(program)]
pub enum Then {
    /// The highest compliance value: nothing stands behind the test.
    Top,
    /// The compliance value of this name.
    Value(FlatExpr),
    /// What this program is worth.
    Block(Program),
}

/// The tree that contracts see of an expression (`FlatExpr`); no value of it is made.
#[derive(Drop)]
#[cycle(expr)]
pub enum Expr {
    /// `true` or `false`.
    Truth(bool),
    /// A number.
    Whole(i32),
    /// The value of a literal.
    Text(Octets),
    /// A name, which has a value in an environment.
    Name(Octets),
    /// `!`.
    Not(Boxed<Expr>),
    /// `-` before an expression.
    Minus(Boxed<Expr>),
    /// `@`: the number that a text begins with.
    Number(Boxed<Expr>),
    /// `$`: the value of the name that a text is.
    Deref(Boxed<Expr>),
    /// Two or more parts with `&&` between them.
    And(List<Expr>),
    /// Two or more parts with `||` between them.
    Or(List<Expr>),
    /// A comparison.
    Compare {
        sign: Comparison,
        left: Boxed<Expr>,
        right: Boxed<Expr>,
    },
    /// Operations of one level of the grammar, grouped to the left; there is at least one.
    Chain {
        first: Boxed<Expr>,
        rest: List<Link2>,
    },
}

/// An operation and its right side, as contracts see them (`Links`); no value of it is made.
#[derive(Drop)]
#[cycle(expr)]
pub struct Link2 {
    pub sign: Operation,
    pub right: Expr,
}

/// A sign between the sides of a comparison.
#[derive(Clone, Copy, PartialEq, Eq)]
pub enum Comparison {
    /// `==`
    Eq,
    /// `!=`
    Ne,
    /// `<`
    Lt,
    /// `>`
    Gt,
    /// `<=`
    Le,
    /// `>=`
    Ge,
}

/// A sign of an operation.
#[derive(Clone, Copy, PartialEq, Eq)]
pub enum Operation {
    /// `+`
    Plus,
    /// `-`
    Less,
    /// `.`
    Join,
    /// `*`
    Times,
    /// `/`
    Divide,
    /// `%`
    Rest,
    /// `^`
    Power,
}
