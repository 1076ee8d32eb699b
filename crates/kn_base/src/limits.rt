//! The limits of keynoted, which are its own. Sizes in bytes are `usize`, counts are `u32`.

/// The bytes of an assertion, and of a block of the protocol.
pub const ASSERTION_BYTES: usize = 16_384;

/// The bytes of a request line before its newline.
pub const LINE_BYTES: usize = 8_192;

/// The brackets that may be open at once in a field.
pub const OPEN_BRACKETS: u32 = 64;

/// The prefix signs that may stand in a row.
pub const PREFIX_SIGNS: u32 = 8;

/// The bytes of an attribute's name.
pub const NAME_BYTES: usize = 128;

/// The bytes of an attribute's value.
pub const VALUE_BYTES: usize = 4_096;

/// The bytes of a principal.
pub const PRINCIPAL_BYTES: usize = 4_096;

/// The bytes of a text in an evaluation.
pub const TEXT_BYTES: usize = 65_536;

/// The attributes of a session.
pub const ATTRIBUTES: u32 = 256;

/// The requesters of a session.
pub const REQUESTERS: u32 = 64;

/// The private assertions of a session.
pub const PRIVATE_ASSERTIONS: u32 = 64;

/// The bytes of a session's private assertions together.
pub const PRIVATE_BYTES: usize = 262_144;

/// The sessions of a connection.
pub const SESSIONS: u32 = 16;

/// The fewest compliance values of a query.
pub const FEWEST_COMPLIANCE_VALUES: u32 = 2;

/// The most compliance values of a query.
pub const MOST_COMPLIANCE_VALUES: u32 = 64;

/// The bytes of a compliance value's name, which has one at least.
pub const COMPLIANCE_VALUE_BYTES: usize = 128;

/// The live credentials of the shared set.
pub const LIVE_CREDENTIALS: u32 = 4_096;

/// The credentials that `gen` makes.
pub const GENERATED_CREDENTIALS: u32 = 2_048;

/// The bytes of the live credentials together.
pub const LIVE_BYTES: usize = 8_388_608;

/// The changes of all updates of the shared set.
pub const UPDATES: u32 = 65_536;

/// The changes of one update, which has one at least, and the items of a batch.
pub const CHANGES: u32 = 256;

/// The newest versions of the shared set that are kept, the newest among them.
pub const RETAINED_VERSIONS: u32 = 16;

/// The updates that one reply to LOG tells.
pub const LOG_UPDATES: u32 = 16;

/// The nodes of a system whose critical credentials are looked for.
pub const CRITICAL_NODES: u32 = 16_384;

/// The bytes of all credentials that were ever added to the shared set.
pub const LOGGED_BYTES: usize = 67_108_864;

/// The workers of a server.
pub const WORKERS: u32 = 16;

/// The passes of a turn.
pub const PASSES: u32 = 64;

/// The requests of a connection.
pub const REQUESTS: u32 = 1_000_000;

/// The connections of a server.
pub const CONNECTIONS: u32 = 1_000_000;

/// The bytes of a file.
pub const FILE_BYTES: usize = 16_777_216;

/// The greatest number that a token spells and an expression holds.
pub const WHOLE_NUMBER: u32 = 2_147_483_647;
