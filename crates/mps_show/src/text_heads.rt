//! What a role may do next, as words.
ghost use Rattle.std.specs.Prelude.{◌≡◌, ◌<◌, ◌++◌, ◌∷◌, [], OnOk, length, codes};
ghost use Rattle.std.specs.List.{AllByRecursion};
ghost use Rattle.mps_base.specs.Sorts.{sort_word};
ghost use Rattle.mps_base.specs.Spaced.{spaced};
ghost use Rattle.mps_base.specs.Texts.{IsPlainByte};
ghost use Rattle.mps_local.specs.Actions.{head};
ghost use Rattle.mps_session.specs.SessionState.{session_view};
ghost use Rattle.mps_show.specs.Shown.{head_tokens};

use mps_base::{Name, Role, Roles, Sort};
use mps_session::{Expect, Session};
use std::alloc::AllocError;

/// Appends what the role's type allows next, in words: `end`, or an act's word, the peer, and a sort or labels. When
/// out of memory a part may stand in `out`; the caller drops it.
pub(crate) fn put_head(
    out: &mut Vec<u8>,
    names: &Roles,
    session: &Session,
    role: Role,
) -> Result<(), AllocError>
    requires count { length names.now ≡ length session.now.types }
    requires role { role < length session.now.types }
    ensures text { OnOk result (out.new.items ≡ out.old.items
        ++ spaced (head_tokens names.now (head ((session_view session.now).participant role).to_come))) }
    ensures plain { OnOk result (AllByRecursion IsPlainByte
        (spaced (head_tokens names.now (head ((session_view session.now).participant role).to_come)))) }
{
    // what an `Expect` may hold: the prover covers a function with one only where it names these
    let _held: Option<(Role, Sort, Name)> = None;
    match session.expect(role) {
        Expect::End => put_end(out),
        Expect::Send(peer, sort) => put_action(out, b"send", &names.name(peer), sort),
        Expect::Recv(peer, sort) => put_action(out, b"recv", &names.name(peer), sort),
        Expect::Select(peer, labels) => put_choice(out, b"choose", &names.name(peer), labels),
        Expect::Branch(peer, labels) => put_choice(out, b"pick", &names.name(peer), labels),
    }
}

// Appends `end`: the role's type has ended. It fails only when out of memory, and appends nothing then. Apart, as the
// other heads, each with the clauses `text` and `plain`.
fn put_end(out: &mut Vec<u8>) -> Result<(), AllocError>
    ensures text { OnOk result (out.new.items ≡ out.old.items ++ codes "end") }
    ensures plain { OnOk result (AllByRecursion IsPlainByte (codes "end")) }
{
    out.extend_from_slice(b"end")
}

// Appends an act of a value: its word, the peer and the sort, with a space between two. When out of memory a part may
// stand in `out`; the caller drops it.
fn put_action(out: &mut Vec<u8>, word: &[u8], peer: &Name, sort: Sort) -> Result<(), AllocError>
    requires { AllByRecursion IsPlainByte word.now }
    ensures text { OnOk result (out.new.items ≡ out.old.items ++ spaced (word.now ∷ peer.now ∷ sort_word sort ∷ [])) }
    ensures plain { OnOk result (AllByRecursion IsPlainByte (spaced (word.now ∷ peer.now ∷ sort_word sort ∷ []))) }
{
    out.extend_from_slice(word)?;
    put_behind(out, peer.as_bytes())?;
    put_behind(out, sort.word())
}

// Appends a choice: its word, the peer and the labels, at most 16, with a space between two. When out of memory a part
// may stand in `out`; the caller drops it.
fn put_choice(
    out: &mut Vec<u8>,
    word: &[u8],
    peer: &Name,
    labels: &[Name],
) -> Result<(), AllocError>
    requires { AllByRecursion IsPlainByte word.now }
    ensures text { OnOk result (out.new.items ≡ out.old.items ++ spaced (word.now ∷ peer.now ∷ labels.now)) }
    ensures plain { OnOk result (AllByRecursion IsPlainByte (spaced (word.now ∷ peer.now ∷ labels.now))) }
{
    out.extend_from_slice(word)?;
    put_behind(out, peer.as_bytes())?;
    for label in labels {
        put_behind(out, label.as_bytes())?;
    }
    Ok(())
}

// Appends a space and a word. When out of memory the space may stand in `out` alone; the caller drops it.
fn put_behind(out: &mut Vec<u8>, word: &[u8]) -> Result<(), AllocError>
    ensures { OnOk result (out.new.items ≡ out.old.items ++ 32 ∷ word.now) }
{
    out.push(b' ')?;
    out.extend_from_slice(word)
}
