//! When two sessions are causally the same.
ghost use Rattle.std.specs.Prelude.{◌≡◌, ◌<◌, ◌↔◌, IsTrue, IsSome};
ghost use Rattle.std.specs.Option.{option_copied};
ghost use Rattle.mps_history.specs.Swaps.{Swaps};
ghost use Rattle.mps_arena.specs.KeyedSteps.{keyed_at, AreSound};
ghost use Rattle.mps_session.specs.Private.Pasts.{deed_in, past_in};
ghost use Rattle.mps_session.specs.SessionState.{session_view};

use crate::session::Session;
use mps_base::{Act, Message, Name, Role, Value};
use mps_log::{Key, Log};

// Whether the values are equal. `Value` has no `==` of its own, since a text has none.
fn same_value(a: &Value, b: &Value) -> bool
    ensures { IsTrue result ↔ (a.now ≡ b.now) }
{
    match (a, b) {
        (Value::Int(m), Value::Int(n)) => m == n,
        (Value::Bool(m), Value::Bool(n)) => m == n,
        (Value::Text(m), Value::Text(n)) => m.as_bytes() == n.as_bytes(),
        _ => false,
    }
}

// Whether the messages are equal: two values or two labels, since a text and a label of the same bytes differ.
fn same_message(a: &Message, b: &Message) -> bool
    ensures { IsTrue result ↔ (a.now ≡ b.now) }
{
    match (a, b) {
        (Message::Value(v), Message::Value(w)) => same_value(v, w),
        (Message::Label(l), Message::Label(m)) => l.is(m),
        _ => false,
    }
}

// Whether both have the same slot, or neither has one: a receipt and a pick differ by it.
fn same_slot(a: &Option<Name>, b: &Option<Name>) -> bool
    ensures { IsTrue result ↔ (a.now ≡ b.now) }
{
    match (a, b) {
        (Some(x), Some(y)) => x.is(y),
        (None, None) => true,
        _ => false,
    }
}

// Whether the acts are equal, with their peers, messages, slots and names. Numbers and roles are not part of an act.
fn same_act(a: &Act, b: &Act) -> bool
    ensures { IsTrue result ↔ (a.now ≡ b.now) }
{
    match (a, b) {
        (
            Act::Out { to, message },
            Act::Out {
                to: other,
                message: said,
            },
        ) => { to.is(*other) && same_message(message, said) }
        (
            Act::In { from, slot },
            Act::In {
                from: other,
                slot: place,
            },
        ) => { from.is(*other) && same_slot(slot, place) }
        (Act::Mark(m), Act::Mark(n)) => m.is(n),
        (Act::Commit, Act::Commit) => true,
        _ => false,
    }
}

// Whether both took equal messages, or neither took one, as steps that are no receipts or picks.
fn same_taken(a: Option<&Message>, b: Option<&Message>) -> bool
    ensures { IsTrue result ↔ (option_copied a.entry ≡ option_copied b.entry) }
{
    match (a, b) {
        (Some(m), Some(n)) => same_message(m, n),
        (None, None) => true,
        _ => false,
    }
}

// Whether the steps of the keys, each in its log, did the same and took the same message. What a receipt took is not in
// its act, so it is compared apart.
fn same_deed(a: &Log, x: Key, b: &Log, y: Key) -> bool
    requires first { IsSome (keyed_at x a.now.keyed_steps) }
    requires second { IsSome (keyed_at y b.now.keyed_steps) }
    ensures { IsTrue result ↔ (deed_in a.now.keyed_steps x ≡ deed_in b.now.keyed_steps y) }
{
    same_act(&a.get(x).act, &b.get(y).act) && same_taken(a.taken(x), b.taken(y))
}

// Whether the role did the same in both logs, compared from its last step back. O(steps of the role).
fn same_past(a: &Log, b: &Log, role: Role) -> bool
    requires role { role < 8 }
    requires first { AreSound a.now.keyed_steps }
    requires second { AreSound b.now.keyed_steps }
    ensures { IsTrue result ↔ (past_in role a.now.keyed_steps ≡ past_in role b.now.keyed_steps) }
{
    let mut last = a.last_of(role);
    let mut other = b.last_of(role);
    // no role has more steps than that, so the walk comes to its end
    for _ in 0..a.len() {
        let Some(x) = last else {
            return other.is_none();
        };
        let Some(y) = other else {
            return false;
        };
        if !same_deed(a, x, b, y) {
            return false;
        }
        last = a.prev_of_role(x);
        other = b.prev_of_role(y);
    }
    other.is_none()
}

/// Whether two sessions of the same types are causally equivalent (Danos, Krivine, CONCUR 2004): each role did the same
/// in both, whatever the order across roles and the numbers. It does not allocate. Unproved: O(steps), each role's acts
/// are compared, with what its receipts took, and nothing else.
pub fn same(a: &Session, b: &Session) -> bool
    requires types { a.now.types ≡ b.now.types }
    ensures views { IsTrue result ↔ (session_view a.now ≡ session_view b.now) }
    ensures swaps { IsTrue result ↔ Swaps a.now.state.history b.now.state.history }
{
    let ours = &a.configuration.log;
    let theirs = &b.configuration.log;
    // roles that aren't there did nothing in both
    for role in 0..8 {
        if !same_past(ours, theirs, Role::new(role)) {
            return false;
        }
    }
    true
}
