//! The stores of all roles.
ghost use Rattle.std.specs.Prelude.{◌≡◌, ℕ, ◌<◌, ◌==◌, not, List, [], ◌∷◌, ◌++◌, Some, None, IfOk, OnOk, OnErr};
ghost use Rattle.std.specs.Prelude.{replicate, length, slice_get, slice_set};
ghost use Rattle.std.specs.List.{filter};
ghost use Rattle.std.specs.Option.{option_map};
ghost use Rattle.std.specs.Map.Iter.{ShowsInOrder, deref_pair};
ghost use Rattle.mps_history.specs.Slots.{bound, unbound, value_in};
ghost use Rattle.mps_arena.specs.Keys.{last_key};
ghost use Rattle.mps_arena.specs.KeyedSteps.{KeyedStep, keys_of, of_role, keyed_at, AreSound};
ghost use Rattle.mps_stores.specs.Stores.{Naming, store_at, IsBinding, AreStores};

use crate::store::Store;
use indexmap::map::Iter;
use mps_arena::Key;
use mps_base::{Name, Role};
use std::alloc::{AllocError, Global};
use std::marker::Model;

/// For each of 8 roles the names that its steps bound, in the order in which they were first bound, each with the key
/// of the step that bound it last.
#[derive(Drop)]
pub struct Stores {
    stores: Vec<Store>,
}

impl Model for Stores {
    ghost use Rattle.std.specs.Prelude.{◌≡◌, List, length};
    ghost use Rattle.mps_stores.specs.Stores.{Keys};

    ghost Value = { List Keys };

    ghost view = { λ s. s.stores.items };

    ghost invariant = { λ s. length s.stores.items ≡ 8 };
}

impl Stores {
    /// Stores of 8 roles in which no name is bound. It allocates the list of the eight; out of memory is the only
    /// error. The allocator is kept for later growth.
    pub fn new(alloc: Global) -> Result<Stores, AllocError>
        ensures empty { IfOk result (λ stores. stores ≡ replicate 8 []) }
        ensures stores { IfOk result (λ stores. (naming : Naming) → AreStores naming [] stores) }
    {
        let mut stores = Vec::with_capacity(alloc, 8)?;
        for _ in 0..8usize {
            stores.push(Store::new(alloc))?;
        }
        Ok(Stores { stores })
    }

    /// The key of the step to which the role's name is bound, or `None`. O(1), in the role's own store.
    pub fn get(&self, role: Role, name: &Name) -> Option<Key>
        requires { role < 8 }
        ensures { result ≡ value_in name.now (store_at self.now role) }
    {
        self.stores[role.index()].get(name)
    }

    /// An iterator over the role's names, in the order in which they were first bound, each with the key of its step.
    /// It borrows the role's own store, and does not allocate.
    pub fn entries(&self, role: Role) -> Iter<'_, Name, Key>
        requires { role < 8 }
        ensures rest { result ≡ store_at self.now role }
        ensures runs { ShowsInOrder (deref_pair {K = List ℕ} {X = ℕ}) }
    {
        self.stores[role.index()].entries()
    }

    /// How many names of the role are bound now. O(1), in the role's own store.
    pub fn count(&self, role: Role) -> usize
        requires { role < 8 }
        ensures { result ≡ length (store_at self.now role) }
    {
        self.stores[role.index()].len()
    }

    /// The role's name that was first bound as the k-th, from 0, and the key of its step, or `None` where fewer are
    /// bound. O(1), in the role's own store.
    pub fn nth(&self, role: Role, k: usize) -> Option<(&Name, &Key)>
        requires { role < 8 }
        ensures { option_map (deref_pair {K = List ℕ} {X = ℕ}) result
            ≡ slice_get (store_at self.now role) k }
    {
        self.stores[role.index()].nth(k)
    }

    /// Binds the role's name to a step, and returns the step to which it was bound, for `unbind` to restore. A known
    /// name keeps its place and does not allocate. Out of memory is the only error, and changes nothing.
    #[inline(always)]
    pub fn bind(&mut self, role: Role, name: &Name, key: Key) -> Result<Option<Key>, AllocError>
        requires { role < 8 }
        ensures replaced { IfOk result (λ older. older ≡ value_in name.now (store_at self.old role)) }
        ensures bound { OnOk result (self.new
            ≡ slice_set self.old role (bound name.now key (store_at self.old role))) }
        ensures follows { IfOk result (λ older. (naming : Naming) (es : List KeyedStep) (e : KeyedStep) →
            AreStores naming es self.old → IsBinding naming role name.now e →
            e.key ≡ key → e.before.bound ≡ older → AreStores naming (es ++ e ∷ []) self.new) }
        ensures err { OnErr result (self.new ≡ self.old) }
        ensures absent { OnErr result (value_in name.now (store_at self.old role) ≡ None) }
    {
        let store = &mut self.stores[role.index()];
        store.bind(name, key)
    }

    /// Undoes `bind`: the name is bound to the older step, in its place, or removed where there is none. Where the name
    /// isn't bound, nothing changes. It does not allocate.
    pub fn unbind(&mut self, role: Role, name: &Name, older: Option<Key>)
        requires { role < 8 }
        ensures unbound { self.new
            ≡ slice_set self.old role (unbound name.now older (store_at self.old role)) }
        ensures returns { (naming : Naming) (es : List KeyedStep) (e : KeyedStep) →
            AreStores naming es self.old → AreSound es → keyed_at e.key es ≡ Some e →
            last_key None (keys_of (of_role role) es) ≡ Some e.key →
            IsBinding naming role name.now e → e.before.bound ≡ older →
            AreStores naming (filter (λ other. not (other.key == e.key)) es) self.new }
    {
        let store = &mut self.stores[role.index()];
        store.unbind(name, older);
    }
}
