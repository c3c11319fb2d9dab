//! Reading a protocol.
ghost use Rattle.std.specs.Prelude.{◌≡◌, ◌≢◌, ◌+◌, ◌<◌, ◌≤◌, ◌⊎◌, ℕ, List, []};
ghost use Rattle.std.specs.Prelude.{◌∷◌, ◌++◌, length, map, filter_map, codes, IfOk, IfErr, OnOk, false, true};
ghost use Rattle.std.specs.Prelude.{MatchOption};
ghost use Rattle.std.specs.List.{AllByRecursion};
ghost use Rattle.mps_base.specs.Names.{IsName, IsVariable};
ghost use Rattle.mps_base.specs.RoleLists.{HasRoleCount};
ghost use Rattle.mps_global.specs.Global.{GlobalType, plain, plain_branches};
ghost use Rattle.mps_base.specs.Sorts.{sort_word};
ghost use Rattle.mps_text.specs.Grammar.{IsSpellable, HasBranch, IsWithinLimits, SpellsText, IsRead};
ghost use Rattle.mps_global.specs.Path.{level};
ghost use Rattle.mps_global.specs.Faults.{places};
ghost use Rattle.mps_text.specs.Grammar.{protocol_parts, begun_by, first_token_of};
ghost use Rattle.mps_text.specs.Faults.{IsFirstFault, HasProtocol, HasFault};
ghost use Rattle.mps_text.specs.declared.fault.TextKind.{TextKind};
ghost use Rattle.mps_text.specs.declared.fault.TextKind.TheVariants.{Memory};
ghost use Rattle.mps_text.specs.Private.Lexing.{lexed, tokens_in};
ghost use Rattle.mps_text.specs.Private.Reading.{Symbol, Token, AName, AVariable, ASort, Roles, Node, Exchange, Others};
ghost use Rattle.mps_text.specs.Private.Reading.{branch, AreSpellable};
ghost use Rattle.mps_text.specs.Private.Reading.{first_of, first_token, IsFirst, behind_first, sort_of, which, Reads};
ghost use Rattle.mps_text.specs.Private.Reading.{ReadsAll, Ends};
ghost use Rattle.mps_text.specs.Private.Reading.{tokens_from, tokens_before, branches_before, exchange_tokens};
ghost use Rattle.mps_text.specs.Private.Reading.{behind_exchange, separator, behind_branch};

use crate::fault::{TextFault, TextKind};
use crate::lexing::{Cursor, Halt, lexeme_at, name_of, take, unblanked, variable_of};
use mps_base::{MAX_ROLES, Name, Sort, VarName};
use mps_global::faults::{MAX_DEPTH, MAX_NODES};
use mps_global::{Branches, Global, Protocol};
use std::alloc;

/// How many bytes a protocol text may have; a longer one is `TooLong`, and isn't read.
pub const MAX_TEXT_BYTES: usize = 65536;

/// Reads all of the text as a protocol: `roles`, 2 to 8 names, `;`, and a global type, by recursive descent that the
/// limits on nodes and depth keep short. The first fault is returned with its byte, from 0; `Memory` with byte 0.
/// Whether roles differ and are known is left to `mps_global::check`.
pub fn read_protocol(alloc: alloc::Global, text: &[u8]) -> Result<Protocol, TextFault>
    // What is read is spelled so.
    ensures read { IfOk result (λ p. IsWithinLimits text.now (plain p.body)
        × SpellsText text.now p.roles.items (plain p.body)) }
    // What is spelled so is read, unless memory runs out.
    ensures only { (roles : List (List ℕ)) (tree : GlobalType)
        → IsWithinLimits text.now tree → SpellsText text.now roles tree → IsRead roles tree result }
    // A fault is the first one.
    ensures fault { IfErr result (λ f. IsFirstFault text.now f.at f.kind) }
{
    if text.len() > MAX_TEXT_BYTES {
        return Err(TextFault {
            at: MAX_TEXT_BYTES,
            kind: TextKind::TooLong,
        });
    }
    match protocol_of(alloc, text) {
        Ok(protocol) => Ok(protocol),
        Err(Halt::Memory) => Err(TextFault {
            at: 0,
            kind: TextKind::Memory,
        }),
        Err(Halt::At(left, kind)) => Err(TextFault {
            // so many bytes are left from the fault on
            at: text.len().saturating_sub(left),
            kind,
        }),
    }
}

/// A law: a text spells at most one protocol, so the grammar is unambiguous.
pub fn one_protocol()
    ensures { (text : List ℕ) (r s : List (List ℕ)) (t u : GlobalType)
        → SpellsText text r t → SpellsText text s u → (r ≡ s) × (t ≡ u) }
{}

/// A law: a text has at most one first fault, and none where it spells a protocol within the limits.
pub fn one_fault()
    ensures one { (text : List ℕ) (a b : ℕ) (k l : TextKind) → IsFirstFault text a k
        → IsFirstFault text b l → k ≢ Memory → l ≢ Memory → (a ≡ b) × (k ≡ l) }
    ensures none { (text : List ℕ) (roles : List (List ℕ)) (tree : GlobalType)
        (at : ℕ) (kind : TextKind) → IsWithinLimits text tree → SpellsText text roles tree
        → IsFirstFault text at kind → kind ≡ Memory }
{}

/// A law: each text spells a protocol within the limits, or has a first fault: `TooLong` over 65,536 bytes, and
/// otherwise one that it shows, never out of memory.
pub fn protocol_or_fault()
    ensures { (text : List ℕ) → HasProtocol text ⊎ HasFault text }
{}

/// A law: of a protocol's tokens exactly the first ones of its nodes begin a node, in the order of `places`, each with
/// the depth of its node. So the limits on nodes and depth can be checked while reading.
pub fn first_tokens()
    ensures { (roles : List (List ℕ)) (tree : GlobalType)
        → filter_map begun_by (protocol_parts roles tree)
        ≡ map (λ p. (first_token_of p.node, level p)) (places [] tree) }
{}

// `read_protocol` after the test of the length: reads the heading and the type, of at most 256 nodes, and sees that
// nothing follows.
fn protocol_of(alloc: alloc::Global, text: &[u8]) -> Result<Protocol, Halt>
    ensures runs { ReadsAll text.now result }
    ensures tokens { IfOk result (λ p. tokens_in (lexed text.now)
        ≡ codes "roles" ∷ p.roles.items ++ codes ";" ∷ tokens_before (plain p.body) []) }
    ensures names { IfOk result (λ p. AllByRecursion IsName p.roles.items) }
    ensures count { IfOk result (λ p. HasRoleCount p.roles.items) }
    ensures spellable { IfOk result (λ p. IsSpellable (plain p.body)) }
{
    let mut cursor = Cursor {
        rest: text,
        nodes: MAX_NODES,
    };
    let roles = heading_at(alloc, &mut cursor)?;
    let body = global_at(alloc, 1, &mut cursor)?;
    ended(&cursor)?;
    Ok(Protocol { roles, body })
}

// Reads `roles`, the 2 to 8 roles, and `;`, and returns the names, which may be equal. After a fault the cursor may
// have moved; reading is given up then.
fn heading_at(alloc: alloc::Global, cursor: &mut Cursor<'_>) -> Result<Vec<Name>, Halt>
    ensures runs { Reads (Token (codes "roles") ∷ AName ∷ AName ∷ Roles 6 ∷ []) (λ _. [])
        cursor.old cursor.new result }
    ensures tokens { IfOk result (λ roles. tokens_from cursor.old
        ≡ codes "roles" ∷ roles.items ++ codes ";" ∷ tokens_from cursor.new) }
    ensures names { IfOk result (λ roles. AllByRecursion IsName roles.items) }
    ensures count { IfOk result (λ roles. HasRoleCount roles.items) }
    ensures nodes { cursor.new.nodes ≡ cursor.old.nodes }
{
    expect(cursor, b"roles")?;
    let first = name_at(cursor)?;
    let second = name_at(cursor)?;
    let mut roles = Vec::new(alloc);
    roles.push(first)?;
    roles.push(second)?;
    roles_at(MAX_ROLES - 2, &mut roles, cursor)?;
    Ok(roles)
}

// Reads more names, at most `room`, and `;`, and appends the names to `roles`. After an error some of them may be
// appended; reading is given up then.
fn roles_at(room: usize, roles: &mut Vec<Name>, cursor: &mut Cursor<'_>) -> Result<(), Halt>
    ensures runs { Reads (Roles room ∷ []) (λ _. []) cursor.old cursor.new result }
    ensures tokens { OnOk result (roles.old.items ++ tokens_from cursor.old
        ≡ roles.new.items ++ codes ";" ∷ tokens_from cursor.new) }
    ensures names { OnOk result
        (AllByRecursion IsName roles.old.items → AllByRecursion IsName roles.new.items) }
    ensures some { OnOk result (length roles.old.items ≤ length roles.new.items) }
    ensures few { OnOk result (length roles.new.items ≤ length roles.old.items + room) }
    ensures nodes { cursor.new.nodes ≡ cursor.old.nodes }
{
    let next = take(cursor)?;
    if next.token == b";".as_slice() {
        return Ok(());
    }
    if room == 0 {
        return Err(next.fault(TextKind::Unexpected));
    }
    match name_of(next.token) {
        None => Err(next.fault(TextKind::Unexpected)),
        Some(name) => {
            roles.push(name)?;
            roles_at(room - 1, roles, cursor)
        }
    }
}

// Reads a global type whose root has that depth, from 1. `node_at` refuses more than 64 levels or 256 nodes, so the
// recursion ends. After a fault the trees made so far are dropped.
#[cycle(reading)]
fn global_at(alloc: alloc::Global, depth: usize, cursor: &mut Cursor<'_>) -> Result<Global, Halt>
    ensures runs { Reads (Node depth ∷ []) (λ _. []) cursor.old cursor.new result }
    ensures tokens { IfOk result (λ tree. tokens_from cursor.old
        ≡ tokens_before (plain tree) (tokens_from cursor.new)) }
    ensures spellable { IfOk result (λ tree. IsSpellable (plain tree)) }
    ensures nodes { OnOk result (cursor.new.nodes < cursor.old.nodes) }
{
    match node_at(depth, cursor)? {
        First::End => Ok(Global::End),
        First::Var(name) => Ok(Global::Var(name)),
        First::Rec => {
            let name = variable_at(cursor)?;
            expect(cursor, b".")?;
            let body = global_at(alloc, depth + 1, cursor)?;
            Ok(Global::rec(alloc, name, body)?)
        }
        First::Sender(sender) => {
            let (receiver, payload) = exchange_at(cursor)?;
            match payload {
                Some(sort) => {
                    let next = global_at(alloc, depth + 1, cursor)?;
                    Ok(Global::message(alloc, sender, receiver, sort, next)?)
                }
                None => {
                    let branches = branches_at(alloc, depth + 1, cursor)?;
                    Ok(Global::Choice {
                        sender,
                        receiver,
                        branches,
                    })
                }
            }
        }
    }
}

// Reads branches whose types have roots of that depth, one at least, and `}`. Calls are nested once for each branch,
// and each takes a node, of which there are at most 256.
#[cycle(reading)]
fn branches_at(
    alloc: alloc::Global,
    depth: usize,
    cursor: &mut Cursor<'_>,
) -> Result<Branches, Halt>
    ensures runs { Reads (branch depth) (λ _. []) cursor.old cursor.new result }
    ensures tokens { IfOk result (λ branches. (sep : List ℕ) → (sep ∷ tokens_from cursor.old)
        ≡ branches_before sep (plain_branches branches) (tokens_from cursor.new)) }
    ensures some { IfOk result (λ branches. HasBranch (plain_branches branches)) }
    ensures spellable { IfOk result (λ branches. AreSpellable (plain_branches branches)) }
    ensures nodes { OnOk result (cursor.new.nodes < cursor.old.nodes) }
{
    let label = name_at(cursor)?;
    expect(cursor, b":")?;
    let next = global_at(alloc, depth, cursor)?;
    let others = if another_at(cursor)? {
        branches_at(alloc, depth, cursor)?
    } else {
        Branches::NoMore
    };
    Ok(Branches::more(alloc, label, next, others)?)
}

// How a global type begins.
#[derive(Clone, Copy, Debug)]
pub(crate) enum First {
    End,
    Rec,
    Sender(Name),
    Var(VarName),
}

// Reads the first token of a global type whose root has that depth, and counts the node against the limit. `Unexpected`
// comes before `TooManyNodes`, and that before `TooDeep`.
#[tactic(auto, using(crate::proofs::Tokens::first_is))]
fn node_at(depth: usize, cursor: &mut Cursor<'_>) -> Result<First, Halt>
    ensures runs { Reads (Node depth ∷ []) (behind_first depth) cursor.old cursor.new result }
    ensures tokens { IfOk result (λ first. tokens_from cursor.old
        ≡ first_token first ∷ tokens_from cursor.new) }
    ensures first { IfOk result IsFirst }
    ensures nodes { OnOk result (cursor.new.nodes + 1 ≡ cursor.old.nodes) }
    ensures shallow { OnOk result (depth ≤ 64) }
{
    let next = take(cursor)?;
    match first_of(next.token) {
        None => Err(next.fault(TextKind::Unexpected)),
        Some(_) if cursor.nodes == 0 => Err(next.fault(TextKind::TooManyNodes)),
        Some(_) if depth > MAX_DEPTH => Err(next.fault(TextKind::TooDeep)),
        Some(first) => {
            cursor.nodes -= 1;
            Ok(first)
        }
    }
}

// How a global type with this first token goes on: `end`, `rec`, a sender or a variable; `None` where none begins with
// it.
#[tactic(auto, unfolding(crate::specs::Private::Reading::first_of))]
fn first_of(token: &[u8]) -> Option<First>
    ensures { result ≡ first_of token.now }
{
    if token == b"end".as_slice() {
        return Some(First::End);
    }
    if token == b"rec".as_slice() {
        return Some(First::Rec);
    }
    match name_of(token) {
        Some(name) => Some(First::Sender(name)),
        None => variable_of(token).map(First::Var),
    }
}

// Reads what stands after the sender: `->`, the receiver, and `: sort .` of a message, or `{` of a choice, for which
// the sort is `None`.
fn exchange_at(cursor: &mut Cursor<'_>) -> Result<(Name, Option<Sort>), Halt>
    ensures runs { (depth : ℕ) → Reads (Token (codes "->") ∷ AName ∷ Exchange depth ∷ [])
        (λ x. behind_exchange depth x.1) cursor.old cursor.new result }
    ensures tokens { IfOk result (λ x. tokens_from cursor.old
        ≡ codes "->" ∷ x.0 ∷ exchange_tokens x.1 (tokens_from cursor.new)) }
    ensures name { IfOk result (λ x. IsName x.0) }
    ensures nodes { cursor.new.nodes ≡ cursor.old.nodes }
{
    expect(cursor, b"->")?;
    let receiver = name_at(cursor)?;
    let sort = payload_at(cursor)?;
    Ok((receiver, sort))
}

// Reads what stands after the receiver: `: sort .` of a message, or `{` of a choice, for which it is `None`; else
// `Unexpected`.
fn payload_at(cursor: &mut Cursor<'_>) -> Result<Option<Sort>, Halt>
    ensures runs { (depth : ℕ) → Reads (Exchange depth ∷ []) (behind_exchange depth)
        cursor.old cursor.new result }
    ensures tokens { IfOk result (λ sort. tokens_from cursor.old
        ≡ exchange_tokens sort (tokens_from cursor.new)) }
    ensures nodes { cursor.new.nodes ≡ cursor.old.nodes }
{
    let next = take(cursor)?;
    match which(next.token, b":", b"{") {
        None => Err(next.fault(TextKind::Unexpected)),
        Some(false) => Ok(None),
        Some(true) => {
            let sort = sort_at(cursor)?;
            expect(cursor, b".")?;
            Ok(Some(sort))
        }
    }
}

// Reads `,` or `}` after a branch, and returns whether another branch comes; any other token is `Unexpected`.
#[tactic(auto, using(crate::proofs::Tokens::separator_is))]
fn another_at(cursor: &mut Cursor<'_>) -> Result<bool, Halt>
    ensures runs { (depth : ℕ) → Reads (Others depth ∷ []) (behind_branch depth)
        cursor.old cursor.new result }
    ensures tokens { IfOk result (λ more. tokens_from cursor.old
        ≡ separator more ∷ tokens_from cursor.new) }
    ensures nodes { cursor.new.nodes ≡ cursor.old.nodes }
{
    let next = take(cursor)?;
    match which(next.token, b",", b"}") {
        None => Err(next.fault(TextKind::Unexpected)),
        Some(more) => Ok(more),
    }
}

// Whether the token is `this` or `that`; `None` where it is neither. For the two places of the grammar with two ways
// on.
#[tactic(auto, unfolding(crate::specs::Private::Reading::which))]
fn which(token: &[u8], this: &[u8], that: &[u8]) -> Option<bool>
    ensures { result ≡ which this.now that.now token.now }
{
    if token == this {
        Some(true)
    } else if token == that {
        Some(false)
    } else {
        None
    }
}

// Reads the next token, which has to be the word of a sort; another is `Unexpected`, at its first byte.
#[tactic(auto, using(crate::proofs::Tokens::sort_is))]
fn sort_at(cursor: &mut Cursor<'_>) -> Result<Sort, Halt>
    ensures runs { Reads (ASort ∷ []) (λ _. []) cursor.old cursor.new result }
    ensures tokens { IfOk result (λ sort. tokens_from cursor.old
        ≡ sort_word sort ∷ tokens_from cursor.new) }
    ensures nodes { cursor.new.nodes ≡ cursor.old.nodes }
{
    let next = take(cursor)?;
    match sort_of(next.token) {
        None => Err(next.fault(TextKind::Unexpected)),
        Some(sort) => Ok(sort),
    }
}

// The sort whose word the token is, or `None`: the inverse of `Sort::word`.
#[tactic(auto, unfolding(crate::specs::Private::Reading::sort_of))]
fn sort_of(token: &[u8]) -> Option<Sort>
    ensures { result ≡ sort_of token.now }
{
    match token {
        b"int" => Some(Sort::Int),
        b"bool" => Some(Sort::Bool),
        b"text" => Some(Sort::Text),
        _ => None,
    }
}

// Reads the next token, which has to be a name; another, as a reserved word, is `Unexpected`, at its first byte.
fn name_at(cursor: &mut Cursor<'_>) -> Result<Name, Halt>
    ensures runs { Reads (AName ∷ []) (λ _. []) cursor.old cursor.new result }
    ensures tokens { IfOk result (λ name. tokens_from cursor.old ≡ name ∷ tokens_from cursor.new) }
    ensures name { IfOk result IsName }
    ensures nodes { cursor.new.nodes ≡ cursor.old.nodes }
{
    let next = take(cursor)?;
    match name_of(next.token) {
        None => Err(next.fault(TextKind::Unexpected)),
        Some(name) => Ok(name),
    }
}

// Reads the next token, which has to be a variable; another is `Unexpected`, at its first byte.
fn variable_at(cursor: &mut Cursor<'_>) -> Result<VarName, Halt>
    ensures runs { Reads (AVariable ∷ []) (λ _. []) cursor.old cursor.new result }
    ensures tokens { IfOk result (λ name. tokens_from cursor.old ≡ name ∷ tokens_from cursor.new) }
    ensures name { IfOk result IsVariable }
    ensures nodes { cursor.new.nodes ≡ cursor.old.nodes }
{
    let next = take(cursor)?;
    match variable_of(next.token) {
        None => Err(next.fault(TextKind::Unexpected)),
        Some(name) => Ok(name),
    }
}

// Reads the next token, which has to be this one; another is `Unexpected`, at its first byte.
fn expect(cursor: &mut Cursor<'_>, token: &[u8]) -> Result<(), Halt>
    ensures runs { Reads (Token token.now ∷ []) (λ _. []) cursor.old cursor.new result }
    ensures tokens { OnOk result (tokens_from cursor.old ≡ token.now ∷ tokens_from cursor.new) }
    ensures nodes { cursor.new.nodes ≡ cursor.old.nodes }
{
    let next = take(cursor)?;
    if next.token == token {
        Ok(())
    } else {
        Err(next.fault(TextKind::Unexpected))
    }
}

// Sees that nothing but blanks is left after the protocol: a token is `Trailing`, and what begins no token a malformed
// `Word`.
fn ended(cursor: &Cursor<'_>) -> Result<(), Halt>
    ensures runs { Ends cursor.now result }
    ensures tokens { OnOk result (tokens_from cursor.now ≡ []) }
{
    if unblanked(cursor.rest).is_empty() {
        return Ok(());
    }
    let next = lexeme_at(cursor.rest)?;
    Err(next.fault(TextKind::Trailing))
}
