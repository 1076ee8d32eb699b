//! The trees of assertions (RFC 2704, section 4): what the fields of an assertion state.
#![tactic(auto)]

mod assertion;
mod flat_expr;
mod forest;
mod form;
mod formula;
mod kinds;
mod program;
mod root;
mod signs;
mod stack;
mod typing;

pub use assertion::Assertion;
pub use flat_expr::FlatExpr;
pub use form::{ExprRef, Form, Links, Operands};
pub use formula::Formula;
pub use kinds::Kind;
pub use program::{Clause, Comparison, Expr, Link2, Operation, Program, Then};
pub use stack::ExprStack;
pub use typing::is_well_kinded;
