//! What a call of the registry answered, and prints of what a snapshot shows.
use kn_store::Version;

/// An answer of the registry.
#[derive(Clone, Copy)]
pub enum Event {
    /// The id, the version, and the print of the text.
    Added(u32, u32, u64),
    /// The id and the version.
    Removed(u32, u32),
    /// The version, and the print of its credentials.
    Pinned(u32, u64),
}

/// The print of nothing.
pub const EMPTY: u64 = 0xcbf2_9ce4_8422_2325;

/// The print with one more word.
pub(crate) fn mix(print: u64, word: u64) -> u64 {
    (print ^ word).wrapping_mul(0x0100_0000_01b3)
}

/// The print of a text's bytes, in their order.
pub(crate) fn print_of_text(text: &[u8]) -> u64 {
    let mut print = EMPTY;
    for byte in text {
        print = mix(print, u64::from(*byte));
    }
    print
}

/// The print of a version's credentials, in order of id.
pub(crate) fn print_of_version(version: &Version) -> u64 {
    let mut print = EMPTY;
    for i in 0..version.len() {
        let text = print_of_text(version.credential(i).text.as_slice());
        print = mix(mix(print, u64::from(version.id(i))), text);
    }
    print
}
