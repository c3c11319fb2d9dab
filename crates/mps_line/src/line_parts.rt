//! The parts of a line. The contracts are of its tokens (`specs/Tokens.antt`).
ghost use Rattle.std.specs.Prelude.{◌≡◌, ◌≢◌, ℕ, List, [], ◌∷◌, IfSome, IfNone, OnOk, OnErr, ◌<◌, All, length};
ghost use Rattle.std.specs.Prelude.{slice_index, take};
ghost use Rattle.mps_base.specs.Appends.{AppendsSuch};
ghost use Rattle.mps_base.specs.Spaced.{spaced};
ghost use Rattle.mps_line.specs.Tokens.{RoleAt, Called, Number, SpellsRole, SpellsName, SpellsNumber, SpellsLine};
ghost use Rattle.mps_line.specs.Private.Tokens.{HasNoSpace, BeginsWith};

use mps_base::{Name, Role, Roles, StepId, read_number, write_number};
use std::alloc::AllocError;

// The place of the first space, or `None`. Apart, since its contract says besides that no space stands before.
fn first_space(bytes: &[u8]) -> Option<usize>
    ensures within { IfSome result (λ place. place < length bytes.now) }
    ensures space { IfSome result (λ place. slice_index bytes.now place ≡ 32) }
    ensures before { IfSome result (λ place. All (λ c. c ≢ 32) (take place bytes.now)) }
    ensures none { IfNone result (All (λ c. c ≢ 32) bytes.now) }
{
    bytes.iter().position(|&byte| byte == b' ')
}

// The bytes before the first space, and those after it; `None` without a space. Either may be empty.
#[tactic(auto, using(crate::proofs::Splitting::no_space, crate::proofs::Splitting::never_spaced))]
pub(crate) fn split_at_space(bytes: &[u8]) -> Option<(&[u8], &[u8])>
    ensures parts { IfSome result
        (λ parts. bytes.now ≡ spaced (parts.0.now ∷ parts.1.now ∷ [])) }
    ensures first { IfSome result (λ parts. HasNoSpace parts.0.now) }
    ensures none { IfNone result ((first rest : List ℕ)
        → bytes.now ≢ spaced (first ∷ rest ∷ [])) }
{
    let place = first_space(bytes)?;
    Some((&bytes[..place], &bytes[place + 1..]))
}

// The bytes after the word and a space, where the bytes begin with both; else `None`. They may be empty.
pub(crate) fn after_word<'a>(bytes: &'a [u8], word: &[u8]) -> Option<&'a [u8]>
    ensures read { IfSome result (λ rest. bytes.now ≡ spaced (word.now ∷ rest.now ∷ [])) }
    ensures none { IfNone result ((rest : List ℕ) → bytes.now ≢ spaced (word.now ∷ rest ∷ [])) }
{
    let (first, rest) = bytes.strip_prefix(word)?.split_first()?;
    if *first == b' ' { Some(rest) } else { None }
}

// Reads all of the bytes as the number of a step, below 2^64; `None` for other bytes. Whether there is such a step is
// for the session to say.
pub(crate) fn read_step(bytes: &[u8]) -> Option<StepId>
    ensures read { IfSome result (SpellsNumber bytes.now) }
    ensures none { IfNone result ((id : ℕ) → SpellsNumber bytes.now id → ⊥) }
{
    Some(StepId::new(read_count(bytes)?))
}

// The role whose name is all of the bytes, or `None`: `Roles::find_spelled` with a contract in terms of tokens, by
// which the proofs of lines go.
pub(crate) fn read_role(roles: &Roles, bytes: &[u8]) -> Option<Role>
    ensures read { IfSome result (SpellsRole roles.now bytes.now) }
    ensures none { IfNone result ((role : ℕ) → SpellsRole roles.now bytes.now role → ⊥) }
{
    roles.find_spelled(bytes)
}

// Reads all of the bytes as a number below 2^64, or `None`: `read_number` with a contract in terms of tokens, by which
// the proofs of lines go.
pub(crate) fn read_count(bytes: &[u8]) -> Option<u64>
    ensures read { IfSome result (SpellsNumber bytes.now) }
    ensures none { IfNone result ((n : ℕ) → SpellsNumber bytes.now n → ⊥) }
{
    read_number(bytes)
}

// The role whose name stands before the first space, and the bytes after it; `None` where no role's name and space
// stand there.
#[tactic(auto, using(crate::proofs::Splitting::no_role_alone))]
#[inline(always)]
pub(crate) fn split_role<'a>(roles: &Roles, bytes: &'a [u8]) -> Option<(Role, &'a [u8])>
    ensures read { IfSome result (λ r. BeginsWith roles.now bytes.now (RoleAt r.0) r.1.now) }
    ensures rest { IfSome result (λ r. (role : ℕ) (rest : List ℕ)
        → BeginsWith roles.now bytes.now (RoleAt role) rest → rest ≡ r.1.now) }
    ensures none { IfNone result ((role : ℕ) (rest : List ℕ)
        → BeginsWith roles.now bytes.now (RoleAt role) rest → ⊥) }
{
    let (name, rest) = split_at_space(bytes)?;
    Some((read_role(roles, name)?, rest))
}

// The number before the first space, and the bytes after it; `None` where no number and space stand there. A first byte
// that is no digit answers at once, as in most lines.
#[inline(always)]
pub(crate) fn split_number(bytes: &[u8]) -> Option<(u64, &[u8])>
    ensures read { IfSome result (λ r. BeginsWith [] bytes.now (Number r.0) r.1.now) }
    ensures none { IfNone result ((n : ℕ) (rest : List ℕ)
        → BeginsWith [] bytes.now (Number n) rest → ⊥) }
{
    if !bytes.first()?.is_ascii_digit() {
        return None;
    }
    let (digits, rest) = split_at_space(bytes)?;
    Some((read_count(digits)?, rest))
}

// Appends the name of a role, which has to be one of these. Out of memory is the only error, and appends nothing.
pub(crate) fn write_role(roles: &Roles, role: Role, out: &mut Vec<u8>) -> Result<(), AllocError>
    requires { role < length roles.now }
    ensures ok { OnOk result
        (AppendsSuch (λ text. SpellsRole roles.now text role) out.old.items out.new.items) }
    ensures err { OnErr result (out.new.items ≡ out.old.items) }
{
    out.extend_from_slice(roles.name(role).as_bytes())
}

// Appends a name, with a contract in terms of tokens, by which the proofs of lines go. Out of memory is the only error,
// and appends nothing.
pub(crate) fn write_name(name: &Name, out: &mut Vec<u8>) -> Result<(), AllocError>
    ensures ok { OnOk result
        (AppendsSuch (λ text. SpellsName text name.now) out.old.items out.new.items) }
    ensures err { OnErr result (out.new.items ≡ out.old.items) }
{
    out.extend_from_slice(name.as_bytes())
}

// Appends the number of a step in decimal. Out of memory is the only error, and appends nothing.
#[inline(always)]
pub(crate) fn write_step(id: StepId, out: &mut Vec<u8>) -> Result<(), AllocError>
    ensures ok { OnOk result
        (AppendsSuch (λ text. SpellsNumber text id) out.old.items out.new.items) }
    ensures err { OnErr result (out.new.items ≡ out.old.items) }
{
    write_count(id.number(), out)
}

// Appends a number in decimal: `write_number` with a contract in terms of tokens, by which the proofs of lines go. Out
// of memory is the only error, and appends nothing.
#[inline(always)]
pub(crate) fn write_count(n: u64, out: &mut Vec<u8>) -> Result<(), AllocError>
    ensures ok { OnOk result
        (AppendsSuch (λ text. SpellsNumber text n) out.old.items out.new.items) }
    ensures err { OnErr result (out.new.items ≡ out.old.items) }
{
    write_number(n, out)
}
