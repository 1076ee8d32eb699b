//! Whole connections worked out on the definitions: what the bytes of a client get over a policy. There is no program
//! here, and nothing stands on this crate: it shows that the definition of a served connection means what it is meant
//! to.
#![tactic(auto)]

pub mod connections;
