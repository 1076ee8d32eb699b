//! What connections are served with.
use kn_registry::Registry;

/// What a connection is served with: the shared credentials, who may add to them, the administrators' secret, and what
/// is called before each reply. Contracts see the secret and what the authenticator says, by `config_of`.
#[derive(Drop)]
pub(crate) struct ServeConfig<'a, A, G> {
    pub registry: &'a Registry,
    pub authenticator: &'a A,
    pub secret: &'a [u8],
    pub gate: &'a G,
}
