//! Laws of the definitions, for the crates above: each is the contract of a function that does nothing.
//!
//! Contracts cite a limit by its name; its law says the number.

ghost use Rattle.std.specs.Prelude.{◌≡◌};

use crate::limits::{
    ASSERTION_BYTES, ATTRIBUTES, CHANGES, COMPLIANCE_VALUE_BYTES, CONNECTIONS, CRITICAL_NODES,
    FEWEST_COMPLIANCE_VALUES, FILE_BYTES, GENERATED_CREDENTIALS, LINE_BYTES, LIVE_BYTES,
    LIVE_CREDENTIALS, LOG_UPDATES, LOGGED_BYTES, MOST_COMPLIANCE_VALUES, NAME_BYTES, OPEN_BRACKETS,
    PASSES, PREFIX_SIGNS, PRINCIPAL_BYTES, PRIVATE_ASSERTIONS, PRIVATE_BYTES, REQUESTERS, REQUESTS,
    RETAINED_VERSIONS, SESSIONS, TEXT_BYTES, UPDATES, VALUE_BYTES, WHOLE_NUMBER, WORKERS,
};

/// The bytes of an assertion, and of a block of the protocol.
pub fn assertion_limit()
    ensures { ASSERTION_BYTES ≡ 16384 }
{}

/// The bytes of a request line before its newline.
pub fn line_limit()
    ensures { LINE_BYTES ≡ 8192 }
{}

/// The brackets that may be open at once in a field.
pub fn bracket_limit()
    ensures { OPEN_BRACKETS ≡ 64 }
{}

/// The prefix signs that may stand in a row.
pub fn prefix_limit()
    ensures { PREFIX_SIGNS ≡ 8 }
{}

/// The bytes of an attribute's name.
pub fn name_limit()
    ensures { NAME_BYTES ≡ 128 }
{}

/// The bytes of an attribute's value.
pub fn value_limit()
    ensures { VALUE_BYTES ≡ 4096 }
{}

/// The bytes of a principal.
pub fn principal_limit()
    ensures { PRINCIPAL_BYTES ≡ 4096 }
{}

/// The bytes of a text in an evaluation.
pub fn text_limit()
    ensures { TEXT_BYTES ≡ 65536 }
{}

/// The attributes of a session.
pub fn attribute_limit()
    ensures { ATTRIBUTES ≡ 256 }
{}

/// The requesters of a session.
pub fn requester_limit()
    ensures { REQUESTERS ≡ 64 }
{}

/// The private assertions of a session.
pub fn private_assertion_limit()
    ensures { PRIVATE_ASSERTIONS ≡ 64 }
{}

/// The bytes of a session's private assertions together.
pub fn private_bytes_limit()
    ensures { PRIVATE_BYTES ≡ 262144 }
{}

/// The sessions of a connection.
pub fn session_limit()
    ensures { SESSIONS ≡ 16 }
{}

/// The fewest compliance values of a query.
pub fn fewest_compliance_values()
    ensures { FEWEST_COMPLIANCE_VALUES ≡ 2 }
{}

/// The most compliance values of a query.
pub fn most_compliance_values()
    ensures { MOST_COMPLIANCE_VALUES ≡ 64 }
{}

/// The bytes of a compliance value's name, which has one at least.
pub fn compliance_value_limit()
    ensures { COMPLIANCE_VALUE_BYTES ≡ 128 }
{}

/// The live credentials of the shared set.
pub fn live_credential_limit()
    ensures { LIVE_CREDENTIALS ≡ 4096 }
{}

/// The credentials that `gen` makes.
pub fn generated_credential_limit()
    ensures { GENERATED_CREDENTIALS ≡ 2048 }
{}

/// The bytes of the live credentials together.
pub fn live_bytes_limit()
    ensures { LIVE_BYTES ≡ 8388608 }
{}

/// The changes of all updates of the shared set.
pub fn update_limit()
    ensures { UPDATES ≡ 65536 }
{}

/// The changes of one update, and the items of a batch.
pub fn change_limit()
    ensures { CHANGES ≡ 256 }
{}

/// The newest versions of the shared set that are kept.
pub fn retained_version_limit()
    ensures { RETAINED_VERSIONS ≡ 16 }
{}

/// The updates that one reply to LOG tells.
pub fn log_update_limit()
    ensures { LOG_UPDATES ≡ 16 }
{}

/// The nodes of a system whose critical credentials are looked for.
pub fn critical_node_limit()
    ensures { CRITICAL_NODES ≡ 16384 }
{}

/// The bytes of all credentials that were ever added to the shared set.
pub fn logged_bytes_limit()
    ensures { LOGGED_BYTES ≡ 67108864 }
{}

/// The workers of a server.
pub fn worker_limit()
    ensures { WORKERS ≡ 16 }
{}

/// The passes of a turn.
pub fn pass_limit()
    ensures { PASSES ≡ 64 }
{}

/// The requests of a connection.
pub fn request_limit()
    ensures { REQUESTS ≡ 1000000 }
{}

/// The connections of a server.
pub fn connection_limit()
    ensures { CONNECTIONS ≡ 1000000 }
{}

/// The bytes of a file.
pub fn file_limit()
    ensures { FILE_BYTES ≡ 16777216 }
{}

/// The greatest number that a token spells and an expression holds.
pub fn whole_number_limit()
    ensures { WHOLE_NUMBER ≡ 2147483647 }
{}
