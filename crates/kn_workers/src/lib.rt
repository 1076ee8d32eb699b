//! Workers: each serves the connections of a door by a pass of its own, all over one registry.
#![tactic(auto)]

mod accepted;
mod address;
mod binding;
mod door;
mod hiring;
mod mem_door;
mod mem_net;
mod net;
mod post;
mod served;
mod worker;
mod workers;

pub use accepted::Accepted;
pub use address::{AddressEnding, serve_address};
pub use binding::{BindFault, Binding, ServedAddress};
pub use door::Door;
pub use mem_door::{MemDoor, MemRoom};
pub use mem_net::MemNet;
pub use net::Net;
pub use served::Served;
pub use worker::{ServeEnd, serve_door};
pub use workers::serve_all;
