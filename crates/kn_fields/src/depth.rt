//! How deep the tokens of a field go.
ghost use Rattle.std.specs.Prelude.{◌≡◌, ◌+◌, ◌<◌, ◌≤◌, ◌^◌, length, MatchOption};
ghost use Rattle.kn_lex.specs.Cutting.{TokenView};
ghost use Rattle.kn_lex.specs.TokenViews.{token_view};
ghost use Rattle.kn_fields.specs.Constants.{is_sign_sort};
ghost use Rattle.kn_fields.specs.Depth.{IsNoSignOfOneByte, IsSignOfByte, depth_behind, run_behind};
ghost use Rattle.kn_fields.specs.Fields.{between};
ghost use Rattle.kn_fields.specs.Scanning.{is_past, goes_deep};

use kn_base::limits::{OPEN_BRACKETS, PREFIX_SIGNS};
use kn_lex::{Sort, Token, Tokens};

/// The byte of a token that is a sign of one byte.
#[inline(always)]
#[tactic(auto, using(crate::proofs::DepthScan::one_byte))]
fn sign_byte(token: &Token<'_>) -> Option<u8>
    ensures { MatchOption result (IsNoSignOfOneByte (token_view token.now))
        (λ byte. IsSignOfByte byte (token_view token.now)) }
{
    if matches!(token.sort, Sort::Sign) && token.text.len() == 1 {
        Some(token.text[0])
    } else {
        None
    }
}

/// The brackets that are open behind a sign of one byte.
#[inline(always)]
#[tactic(auto, unfolding(crate::specs::Depth::depth_behind))]
fn depth_behind(depth: u32, byte: u8) -> u32
    requires { depth + 1 < 2 ^ 32 }
    ensures { (token : TokenView) → IsSignOfByte byte token → result ≡ depth_behind depth token }
{
    match byte {
        b'(' | b'{' => depth + 1,
        b')' | b'}' => depth.saturating_sub(1),
        _ => depth,
    }
}

/// The prefix signs that stand in a row up to a sign of one byte.
#[inline(always)]
#[tactic(auto, unfolding(crate::specs::Depth::run_behind))]
fn run_behind(run: u32, byte: u8) -> u32
    requires { run + 1 < 2 ^ 32 }
    ensures { (token : TokenView) → IsSignOfByte byte token → result ≡ run_behind run token }
{
    match byte {
        b'!' | b'-' | b'@' | b'$' => run + 1,
        _ => 0,
    }
}

fn is_past(depth: u32, run: u32) -> bool
    ensures { result ≡ is_past depth run }
{
    depth > OPEN_BRACKETS || run > PREFIX_SIGNS
}

/// Whether the tokens from one place up to another go too deep.
#[tactic(auto, using(crate::proofs::DepthScan::deep_steps), unfolding(crate::specs::Scanning::goes_deep))]
pub fn goes_deep(tokens: &Tokens<'_>, from: u32, to: u32) -> bool
    requires ordered { from ≤ to }
    requires within { to ≤ length tokens.now }
    ensures { result ≡ goes_deep 0 0 (between from to tokens.now) }
{
    // So few tokens open too few brackets, and too few of them are signs in a row.
    if to - from <= PREFIX_SIGNS {
        return false;
    }
    let mut depth: u32 = 0;
    let mut run: u32 = 0;
    for i in from..to {
        let Some(token) = tokens.get(i) else {
            continue;
        };
        let Some(byte) = sign_byte(token) else {
            run = 0;
            continue;
        };
        depth = depth_behind(depth, byte);
        run = run_behind(run, byte);
        if is_past(depth, run) {
            return true;
        }
    }
    false
}
