//! How the faults of the parts are reported: each is the refusal that the daemon's definitions give it. A fault that
//! means out of memory has none.
#![tactic(auto)]

mod calls;
mod updates;

pub use calls::{
    refusal_of_call_fault, refusal_of_fault, refusal_of_session, refusal_of_text,
    refusal_of_values, reply_of_applied,
};
pub use updates::{
    item_refusal_of_text, refusal_as_request, refusal_of_batch, refusal_of_block, refusal_of_item,
    refusal_of_store,
};
