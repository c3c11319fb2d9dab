//! The store of one role.
ghost use Rattle.std.specs.Prelude.{◌≡◌, ℕ, List, [], None, Some, IfOk, IfSome, OnOk, OnErr, length, slice_get};
ghost use Rattle.indexmap.specs.IndexMap.{set_value_at};
ghost use Rattle.std.specs.List.{position};
ghost use Rattle.std.specs.Option.{option_map};
ghost use Rattle.std.specs.Str.{bytes_eq};
ghost use Rattle.std.specs.Map.{keys_of, values_of};
ghost use Rattle.std.specs.Map.Iter.{ShowsInOrder, deref_pair};
ghost use Rattle.mps_history.specs.Slots.{bound, unbound, value_in};

use indexmap::IndexMap;
use indexmap::map::Iter;
use mps_arena::Key;
use mps_base::Name;
use std::alloc::{AllocError, Global};
use std::marker::Model;
use std::mem;

// Up to how many names a store is searched one by one: that takes less than to hash the name.
const FEW: usize = 8;

/// Names and the keys to which they are bound, in the order in which the names were first bound.
#[derive(Drop)]
pub(crate) struct Store {
    keys: IndexMap<Name, Key>,
}

impl Model for Store {
    ghost use Rattle.mps_stores.specs.Stores.{Keys};

    ghost Value = { Keys };

    ghost view = { λ s. s.keys.entries };
}

impl Store {
    /// A store in which no name is bound. It does not allocate; the allocator is kept for `bind`.
    pub(crate) fn new(alloc: Global) -> Store
        ensures { result ≡ [] }
    {
        Store {
            keys: IndexMap::new(alloc),
        }
    }

    /// The key to which the name is bound, or `None`. O(1), by a hash of the name.
    pub(crate) fn get(&self, name: &Name) -> Option<Key>
        ensures { result ≡ value_in name.now self.now }
    {
        self.keys.get(name).copied()
    }

    /// An iterator over the names and their keys, in the order in which the names were first bound. It does not
    /// allocate.
    pub(crate) fn entries(&self) -> Iter<'_, Name, Key>
        ensures rest { result ≡ self.now }
        ensures runs { ShowsInOrder (deref_pair {K = List ℕ} {X = ℕ}) }
    {
        self.keys.iter()
    }

    /// How many names are bound now. O(1).
    pub(crate) fn len(&self) -> usize
        ensures { result ≡ length self.now }
    {
        self.keys.len()
    }

    /// The name that was first bound as the k-th, from 0, and its key, or `None` where fewer are bound. O(1).
    pub(crate) fn nth(&self, k: usize) -> Option<(&Name, &Key)>
        ensures { option_map (deref_pair {K = List ℕ} {X = ℕ}) result ≡ slice_get self.now k }
    {
        self.keys.get_index(k)
    }

    /// Binds the name to the key, and returns the key to which it was bound before, if it was. A new name comes last
    /// and needs memory: out of memory is the only error, and changes nothing. A known name keeps its place.
    pub(crate) fn bind(&mut self, name: &Name, key: Key) -> Result<Option<Key>, AllocError>
        ensures replaced { IfOk result (λ older. older ≡ value_in name.now self.old) }
        ensures bound { OnOk result (self.new ≡ bound name.now key self.old) }
        ensures err { OnErr result (self.new ≡ self.old) }
        ensures absent { OnErr result (value_in name.now self.old ≡ None) }
    {
        if let Some(place) = self.place_among_few(name) {
            return Ok(self.rebind(place, key));
        }
        Ok(self.keys.insert(*name, key)?)
    }

    // The place of a known name in a store of at most 8 names, found without a hash; `None` for a larger store too, so
    // it doesn't say that the name is unknown. Apart from `bind`, so that a large store and an unknown name go on
    // alike, by the hash.
    fn place_among_few(&self, name: &Name) -> Option<usize>
        ensures { IfSome result (λ place. position (bytes_eq name.now) (keys_of self.now) ≡ Some place) }
    {
        if self.keys.len() > FEW {
            return None;
        }
        let known = self.keys.keys();
        place_in(known.as_slice(), name)
    }

    // Binds the name at that place to the key, and returns the old key. It does not allocate; `None`, and no change,
    // where there is no such place. Apart, since its contract is by the place, and not by the name.
    fn rebind(&mut self, place: usize, key: Key) -> Option<Key>
        ensures older { result ≡ slice_get (values_of self.old) place }
        ensures rebound { self.new ≡ set_value_at self.old place key }
    {
        let bound = self.keys.get_index_mut(place)?;
        Some(mem::replace(bound, key))
    }

    /// Undoes `bind`: the name is bound to the older key, in its place, or removed where there is none. Where the name
    /// isn't bound, nothing changes. It does not allocate; a removal takes O(names), to keep their order.
    pub(crate) fn unbind(&mut self, name: &Name, older: Option<Key>)
        ensures { self.new ≡ unbound name.now older self.old }
    {
        if let Some(older) = older {
            if let Some(place) = self.place_among_few(name) {
                self.rebind(place, older);
                return;
            }
        }
        self.unbind_by_hash(name, older);
    }

    // `unbind` for a store of any size. Apart, so that what most undos need is inlined where a step is removed.
    #[inline(never)]
    fn unbind_by_hash(&mut self, name: &Name, older: Option<Key>)
        ensures { self.new ≡ unbound name.now older self.old }
    {
        match older {
            Some(older) => {
                if let Some(key) = self.keys.get_mut(name) {
                    *key = older;
                }
            }
            None => {
                // the other names keep their order
                self.keys.shift_remove(name);
            }
        }
    }
}

// The first place at which the name stands, or `None`: a search in order, for few names. Apart, since its contract is
// by `position`.
fn place_in(names: &[Name], name: &Name) -> Option<usize>
    ensures { result ≡ position (bytes_eq name.now) names.now }
{
    names.iter().position(|other| name.is(other))
}
