//! Who may add credentials: message authentication codes under listed keys, listed digests, and the key file.
#![tactic(auto)]

mod authenticator;
mod digest_list;
mod either;
mod entry;
mod fault;
mod hmac;
mod key_file;
pub mod laws;
mod mac_keys;

pub use authenticator::Authenticator;
pub use digest_list::DigestList;
pub use either::Either;
pub use entry::KEY_BYTES;
pub use fault::{AuthFault, KeyFault};
pub use hmac::{digest_of, hmac_sha256};
pub use key_file::{KeyFile, read_keys};
pub use mac_keys::MacKeys;
