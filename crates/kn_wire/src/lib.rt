//! The line protocol's requests: those of a byte stream that comes in pieces (keynoted's own).
//!
//! A `Feed` takes any pieces of any bytes and gives exactly the requests of the whole. The definitions stand in
//! `specs/`, with their laws and worked examples. Replies are kn_reply's.
#![tactic(auto)]

mod buffer;
mod byte_range;
mod cursor;
mod fault;
mod feed;
mod first;
mod head;
mod hex;
mod items;
pub mod laws;
mod line;
mod request;
mod split;
mod word;
pub mod worked;

pub use fault::WireFault;
pub use feed::{CHUNK_BYTES, Feed};
pub use hex::{decode_hex, is_hex_of};
pub use items::{BatchItem, BatchText, batch_items};
pub use request::Request;
