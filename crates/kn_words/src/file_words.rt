//! The words of the commands that name files alone.
ghost use Rattle.std.specs.Prelude.{◌≡◌, IfSome, IfNone, option_map, slice_get};
ghost use Rattle.kn_words.specs.Commands.{AskFor, CheckFor, FollowFor, VerifyFor, IsNo};

use crate::files::{AskFiles, CheckFiles, VerifyFiles};
use kn_base::Octets;

/// The third word, if there is one.
fn third_word(words: &[Octets]) -> Option<&[u8]>
    ensures { option_map (λ word. word.now) result ≡ slice_get words.now 2 }
{
    match words.get(2) {
        Some(word) => Some(word.as_slice()),
        None => None,
    }
}

/// The files, where the words are `ask` and one or two more.
pub fn ask_files(words: &[Octets]) -> Option<AskFiles<'_>>
    ensures some { IfSome result (λ names. AskFor words.now names) }
    ensures none { IfNone result (IsNo AskFor words.now) }
{
    if words.len() < 2 || words.len() > 3 || words[0].as_slice() != b"ask".as_slice() {
        return None;
    }
    Some(AskFiles {
        policy: words[1].as_slice(),
        keys: third_word(words),
    })
}

/// The files, where the words are `check` and three more.
pub fn check_files(words: &[Octets]) -> Option<CheckFiles<'_>>
    ensures some { IfSome result (λ names. CheckFor words.now names) }
    ensures none { IfNone result (IsNo CheckFor words.now) }
{
    if words.len() != 4 || words[0].as_slice() != b"check".as_slice() {
        return None;
    }
    Some(CheckFiles {
        policy: words[1].as_slice(),
        script: words[2].as_slice(),
        reply: words[3].as_slice(),
    })
}

/// The file, where the words are `follow` and one more.
pub fn log_file(words: &[Octets]) -> Option<&[u8]>
    ensures some { IfSome result (λ name. FollowFor words.now name.now) }
    ensures none { IfNone result (IsNo FollowFor words.now) }
{
    if words.len() != 2 || words[0].as_slice() != b"follow".as_slice() {
        return None;
    }
    Some(words[1].as_slice())
}

/// The files, where the words are `verify` and three more.
pub fn verify_files(words: &[Octets]) -> Option<VerifyFiles<'_>>
    ensures some { IfSome result (λ names. VerifyFor words.now names) }
    ensures none { IfNone result (IsNo VerifyFor words.now) }
{
    if words.len() != 4 || words[0].as_slice() != b"verify".as_slice() {
        return None;
    }
    Some(VerifyFiles {
        policy: words[1].as_slice(),
        script: words[2].as_slice(),
        replies: words[3].as_slice(),
    })
}
