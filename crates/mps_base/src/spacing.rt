//! Tokens with one space between two.
ghost use Rattle.std.specs.Prelude.{◌≡◌, ℕ, ◌<◌, ◌++◌, List, [], ◌∷◌, length, OnOk, OnErr};
ghost use Rattle.mps_base.specs.Spaced.{spaced, with_token, with_tokens};

use std::alloc::AllocError;

/// Appends a token to `out`, with a space before it unless `out` is empty. Out of memory is the only error, and leaves
/// `out` unchanged: neither space nor token is written.
#[tactic(auto, using(crate::proofs::Spaced::first_token, crate::proofs::Spaced::next_token))]
pub fn push_token(out: &mut Vec<u8>, token: &[u8]) -> Result<(), AllocError>
    ensures ok { OnOk result (out.new.items ≡ with_token out.old.items token.now) }
    ensures err { OnErr result (out.new.items ≡ out.old.items) }
{
    if out.is_empty() {
        return out.extend_from_slice(token);
    }
    // for both, so that no space is written without its token
    out.reserve(token.len() + 1)?;
    out.push(b' ')?;
    out.extend_from_slice(token)
}

/// A law: what `push_token` writes into an empty `out`, token after token, is the tokens with one space between two,
/// where the first isn't empty. So writers compose.
pub fn written_spaced()
    ensures parts { (out : List ℕ) (front back : List (List ℕ))
        → with_tokens out (front ++ back) ≡ with_tokens (with_tokens out front) back }
    ensures spaced { (first : List ℕ) (tokens : List (List ℕ)) → 0 < length first
        → with_tokens [] (first ∷ tokens) ≡ spaced (first ∷ tokens) }
{}
