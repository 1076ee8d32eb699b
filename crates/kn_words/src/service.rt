//! What a service is asked to do.

use crate::files::AskFiles;
use std::marker::Model;

/// A service: the files that it is given by, the address that it binds, and how its connections are shared.
#[derive(Drop)]
pub struct Service<'a> {
    pub files: AskFiles<'a>,
    /// The text of the address.
    pub address: &'a [u8],
    /// How many workers there are, each at a door of its own: 1 to 16.
    pub workers: u32,
    /// How many connections are served in all: at most 1,000,000.
    pub connections: u32,
}

impl<'a> Model for Service<'a> {
    ghost use Rattle.kn_words.specs.Orders.{Order};

    ghost Value = { Order };

    ghost view = { λ s. record {
      files = s.files;
      address = s.address.now;
      workers = s.workers;
      connections = s.connections;
    } };
}
