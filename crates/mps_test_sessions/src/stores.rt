//! mps_stores: names are bound in order, and a binding that is taken back gives the one before it.
ghost use Rattle.std.specs.Prelude.{◌<◌};

use crate::words::name;
use mps_arena::{Arena, Before, Key};
use mps_base::{Act, Role};
use mps_stores::*;
use std::alloc::AllocGlobal;
use std::process::Abort;

// The key of one step more.
fn next_key(rt: &impl Abort, arena: &mut Arena) -> Key {
    let key = arena.reserve_one().expect(rt, "memory");
    let act = Act::Mark(name(rt, "m"));
    arena.add(Role::new(0), act, Before { at: 0, bound: None }, None);
    key
}

// The keys of so many steps.
fn some_keys(rt: &(impl Abort + AllocGlobal), count: usize) -> Vec<Key> {
    let mut arena = Arena::new(rt.alloc());
    let mut keys = Vec::new(rt.alloc());
    for _ in 0..count {
        keys.push(next_key(rt, &mut arena)).expect(rt, "memory");
    }
    keys
}

// The key at that place, if one is asked for.
fn key_at(rt: &impl Abort, keys: &[Key], place: Option<usize>) -> Option<Key> {
    match place {
        Some(place) => Some(*keys.get(place).expect(rt, "a key")),
        None => None,
    }
}

// What is done to a slot. A key is named by its place.
#[derive(Clone, Copy)]
enum Ask {
    // binds it to the one key, where it was bound to the other
    Bind(&'static str, usize, Option<usize>),
    // takes its binding back to the key
    Unbind(&'static str, Option<usize>),
}

// What is done, and the role's slots then, each with the place of its key.
type Row = (Ask, &'static [(&'static str, usize)]);

// Does what is asked.
fn asked(rt: &impl Abort, stores: &mut Stores, role: Role, keys: &[Key], ask: &Ask)
    requires { role < 8 }
{
    match ask {
        Ask::Bind(slot, place, older) => {
            let key = *keys.get(*place).expect(rt, "a key");
            let was = stores.bind(role, &name(rt, slot), key).expect(rt, "memory");
            assert!(rt; was == key_at(rt, keys, *older), "what {slot} was bound to");
        }
        Ask::Unbind(slot, older) => {
            stores.unbind(role, &name(rt, slot), key_at(rt, keys, *older));
        }
    }
}

// The role has these slots, in order.
fn shows(rt: &impl Abort, stores: &Stores, role: Role, keys: &[Key], want: &[(&str, usize)])
    requires { role < 8 }
{
    assert_eq!(rt;
        stores.entries(role).len(),
        want.len(),
        "the count of slots"
    );
    for (entry, (letters, place)) in stores.entries(role).zip(want) {
        let key = key_at(rt, keys, Some(*place));
        assert!(rt;
            entry.0.is_spelled(letters.as_bytes()),
            "the place of {letters}"
        );
        assert!(rt; Some(*entry.1) == key, "what {letters} shows");
        assert!(rt;
            stores.get(role, entry.0) == key,
            "what {letters} is bound to"
        );
    }
    assert!(rt;
        stores.get(role, &name(rt, "w")).is_none(),
        "slot w is not bound"
    );
}

// x and y are bound, x once more, and then each gets back what it had. Keys are named by their places among four.
const THERE_AND_BACK: &[Row] = &[
    (Ask::Bind("x", 0, None), &[("x", 0)]),
    (Ask::Bind("y", 1, None), &[("x", 0), ("y", 1)]),
    (Ask::Bind("x", 2, Some(0)), &[("x", 2), ("y", 1)]),
    // w is not bound, so nothing changes
    (Ask::Unbind("w", Some(3)), &[("x", 2), ("y", 1)]),
    (Ask::Unbind("x", Some(0)), &[("x", 0), ("y", 1)]),
    (Ask::Unbind("y", None), &[("x", 0)]),
    // y is not bound any more, so nothing changes
    (Ask::Unbind("y", None), &[("x", 0)]),
    (Ask::Unbind("x", None), &[]),
];

// `mps_stores::Stores::bind` and `unbind` in each of 8 roles: a name bound again keeps its place, and gets back what it
// had.
#[test]
fn a_name_unbound_gets_back_what_it_had(rt: HostRuntime) {
    let keys = some_keys(&rt, 4);
    let mut stores = Stores::new(rt.alloc()).expect(&rt, "memory");
    for place in 0..8u8 {
        for row in THERE_AND_BACK {
            asked(&rt, &mut stores, Role::new(place), &keys, &row.0);
            shows(&rt, &stores, Role::new(place), &keys, row.1);
        }
    }
}

// `mps_stores::Stores::bind` and `unbind`: each of 8 roles binds x to a key of its own, and what role 5 takes back is
// still bound for 4 and 6.
#[test]
fn each_role_has_its_own_bindings(rt: HostRuntime) {
    let keys = some_keys(&rt, 8);
    let mut stores = Stores::new(rt.alloc()).expect(&rt, "memory");
    for place in 0..8u8 {
        let bind = Ask::Bind("x", usize::from(place), None);
        asked(&rt, &mut stores, Role::new(place), &keys, &bind);
    }
    for place in 0..8u8 {
        shows(
            &rt,
            &stores,
            Role::new(place),
            &keys,
            &[("x", usize::from(place))],
        );
    }
    stores.unbind(Role::new(5), &name(&rt, "x"), None);
    shows(&rt, &stores, Role::new(4), &keys, &[("x", 4)]);
    shows(&rt, &stores, Role::new(5), &keys, &[]);
    shows(&rt, &stores, Role::new(6), &keys, &[("x", 6)]);
}

// More names than the 8 that a store compares one by one; it finds these by their hashes.
const LETTERS: &[&str] = &[
    "a", "b", "c", "d", "e", "f", "g", "h", "i", "j", "k", "l", "m", "n", "o", "p", "q", "r", "s",
    "t", "u", "v",
];

// Binds a slot that was not bound.
fn binds(rt: &impl Abort, stores: &mut Stores, role: Role, letters: &str, key: Key)
    requires { role < 8 }
{
    let was = stores
        .bind(role, &name(rt, letters), key)
        .expect(rt, "memory");
    assert!(rt; was.is_none(), "{letters} was not bound");
}

// The slot is bound to the key.
fn is_bound(rt: &impl Abort, stores: &Stores, role: Role, letters: &str, key: Option<Key>)
    requires { role < 8 }
{
    assert!(rt;
        stores.get(role, &name(rt, letters)) == key,
        "what {letters} is bound to"
    );
}

// Takes the slot's binding back.
fn unbinds(rt: &impl Abort, stores: &mut Stores, role: Role, letters: &str)
    requires { role < 8 }
{
    stores.unbind(role, &name(rt, letters), None);
    is_bound(rt, stores, role, letters, None);
}

// `mps_stores::Stores::bind` and `unbind`: 22 names of the last role are bound and taken back again, first to last and
// last to first.
#[test]
fn many_names_are_bound_and_unbound_in_order(rt: HostRuntime) {
    let keys = some_keys(&rt, 22);
    let role = Role::new(7);
    let mut stores = Stores::new(rt.alloc()).expect(&rt, "memory");
    for (letters, key) in LETTERS.iter().zip(&keys) {
        binds(&rt, &mut stores, role, letters, *key);
    }
    is_bound(&rt, &stores, role, "a", key_at(&rt, &keys, Some(0)));
    is_bound(&rt, &stores, role, "v", key_at(&rt, &keys, Some(21)));
    for letters in LETTERS.iter().rev() {
        unbinds(&rt, &mut stores, role, letters);
    }
    assert_eq!(rt; stores.entries(role).len(), 0, "no slot is left");
}
