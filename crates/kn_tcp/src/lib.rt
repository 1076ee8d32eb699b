//! The net of the system: the doors of a TCP listener.
#![tactic(auto)]

mod accepting;
mod tcp_door;
mod tcp_net;

pub use tcp_door::TcpDoor;
pub use tcp_net::TcpNet;
