//! The answers that a pull waits for.
ghost use Rattle.std.specs.Prelude.{ℕ, ◌≡◌, ◌<◌, ◌≤◌, ◌==◌, List, [], ◌∷◌, ◌++◌, length, take, codes, position};
ghost use Rattle.std.specs.Prelude.{slice_index, IfOk, IfSome, IfNone};
ghost use Rattle.kn_follow.specs.Answers.{Awaits, IsAnswer, IsAnswerForm, IsLine, IsLogAnswer, IsNoLine, WaitsFor};
ghost use Rattle.kn_follow.specs.declared.reply.TheConstants.{REPLY_BYTES};

use crate::reading::read_reply;
use crate::reply::{REPLY_BYTES, ReadStop};
use crate::request::Request;
use kn_base::{NoMemory, decimal};
use std::alloc::Global;

/// How many bytes the answer has that these begin with, if it is whole.
pub(crate) fn find_answer(
    alloc: Global,
    request: Request,
    bytes: &[u8],
) -> Result<Option<usize>, NoMemory>
    ensures within { IfOk result (λ found. IfSome found (λ n. n ≤ length bytes.now)) }
    ensures short { IfOk result (λ found. IfSome found (λ n. n ≤ REPLY_BYTES)) }
    ensures answer { IfOk result (λ found. IfSome found (λ n. IsAnswer request (take n bytes.now))) }
    ensures none { IfOk result (λ found. IfNone found (Awaits request bytes.now)) }
{
    find_form(
        alloc,
        request,
        bytes.split_at(bytes.len().min(REPLY_BYTES)).0,
    )
}

/// How many bytes the text has that these begin with, if it has the form of an answer.
fn find_form(alloc: Global, request: Request, bytes: &[u8]) -> Result<Option<usize>, NoMemory>
    ensures within { IfOk result (λ found. IfSome found (λ n. n ≤ length bytes.now)) }
    ensures answer { IfOk result (λ found. IfSome found (λ n. IsAnswerForm request (take n bytes.now))) }
    ensures none { IfOk result (λ found. IfNone found (WaitsFor (IsAnswerForm request) bytes.now)) }
{
    match request {
        Request::Admin => Ok(line_end(bytes)),
        Request::Log => log_end(alloc, bytes),
        Request::Bye => Ok(line_end(bytes)),
    }
}

/// How many bytes the line has that these begin with.
fn line_end(bytes: &[u8]) -> Option<usize>
    ensures within { IfSome result (λ n. n ≤ length bytes.now) }
    ensures line { IfSome result (λ n. IsLine (take n bytes.now)) }
    ensures none { IfNone result (WaitsFor IsLine bytes.now) }
{
    match place_of(b'\n', bytes) {
        Some(at) => Some(at + 1),
        None => None,
    }
}

/// The place of the first such byte.
fn place_of(wanted: u8, bytes: &[u8]) -> Option<usize>
    ensures place { result ≡ position (λ byte. byte == wanted) bytes.now }
    ensures within { IfSome result (λ at. at < length bytes.now) }
{
    bytes.iter().position(|byte| *byte == wanted)
}

/// How many bytes the answer to LOG has that these begin with.
fn log_end(alloc: Global, bytes: &[u8]) -> Result<Option<usize>, NoMemory>
    ensures within { IfOk result (λ found. IfSome found (λ n. n ≤ length bytes.now)) }
    ensures answer { IfOk result (λ found. IfSome found (λ n. IsLogAnswer (take n bytes.now))) }
    ensures none { IfOk result (λ found. IfNone found (WaitsFor IsLogAnswer bytes.now)) }
{
    match bytes.strip_prefix(b"L") {
        Some(_) => reply_end(alloc, bytes),
        None => Ok(line_end(bytes)),
    }
}

/// The end of a reply, or of the bytes through the first that departs from its form.
fn reply_end(alloc: Global, bytes: &[u8]) -> Result<Option<usize>, NoMemory>
    requires { slice_index bytes.now 0 ≡ 76 }
    ensures within { IfOk result (λ found. IfSome found (λ n. n ≤ length bytes.now)) }
    ensures answer { IfOk result (λ found. IfSome found (λ n. IsLogAnswer (take n bytes.now))) }
    ensures none { IfOk result (λ found. IfNone found (WaitsFor IsLogAnswer bytes.now)) }
{
    match read_reply(alloc, bytes) {
        Ok((_, rest)) => Ok(Some(bytes.len() - rest.len())),
        Err(ReadStop::Departs(rest)) => {
            if rest.is_empty() {
                Ok(None)
            } else {
                Ok(Some(bytes.len() - rest.len() + 1))
            }
        }
        Err(ReadStop::NoMemory) => Err(NoMemory),
    }
}

/// The code of a `NO` line.
pub(crate) fn refusal_code(answer: &[u8]) -> Option<u32>
    ensures code { IfSome result (λ code. IsNoLine answer.now code) }
    ensures none { IfNone result ((code : ℕ) → IsNoLine answer.now code → ⊥) }
{
    let body = refusal_body(answer)?;
    match place_of(b' ', body) {
        Some(at) => {
            if at + 1 == body.len() {
                None
            } else {
                decimal(body.split_at(at).0)
            }
        }
        None => decimal(body),
    }
}

/// What stands between `NO ` and the newline.
fn refusal_body(answer: &[u8]) -> Option<&[u8]>
    ensures some { IfSome result (λ body. answer.now ≡ codes "NO " ++ body.now ++ 10 ∷ []) }
    ensures none { IfNone result ((body : List ℕ) → answer.now ≡ codes "NO " ++ body ++ 10 ∷ [] → ⊥) }
{
    let rest = answer.strip_prefix(b"NO ")?;
    rest.strip_suffix(b"\n")
}
