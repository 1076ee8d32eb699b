//! Files in memory.
use kn_base::Octets;

/// A file in memory.
#[derive(Drop)]
pub struct FileEntry {
    pub name: Octets,
    pub content: Octets,
}
