//! Assertions of KeyNote V2 (RFC 2704, section 4): the reader of their texts. With it stand the trees that it gives
//! (`kn_trees`), the files that have such texts (`kn_files`), and the normal form of principals (`kn_principal`).
#![tactic(auto)]

pub mod laws;
mod parts;
mod reader;
mod stated;

pub use kn_env::Constant;
pub use kn_fields::ReadFault;
pub use kn_files::split_file;
pub use kn_principal::{PrincipalFault, normal, same};
pub use kn_trees::{
    Assertion, Clause, Comparison, ExprRef, FlatExpr, Form, Formula, Kind, Links, Operands,
    Operation, Program, Then,
};
pub use reader::read;
