//! A store of values under keys that it picks, in which an insert that was reserved takes no memory.
#![tactic(auto)]

ghost use Rattle.std.specs.Prelude.{◌≡◌, ℕ, ◌+◌, ◌≤◌, ◌==◌, if◌then◌else◌, Some, IsOk, OnOk, IsSome, OnSome, IfNone, option_copied};
ghost use Rattle.std.specs.Option.{option_copied_mut};
ghost use Rattle.std.specs.Borrow.{sem};
ghost use Rattle.std.specs.FinMap as map;
ghost use Rattle.chunk_store.specs.Contents.{value_at, count_of};

use cht_ids::Memory;
use slab::Slab;
use std::alloc::Global;
use std::marker::Model;

/// A finite map from keys to values that picks its keys.
///
/// A key keeps its value until that value is removed, and only then can an insert pick the key again.
/// Keys say nothing of the order of inserts. Only `reserve` takes memory.
#[derive(Drop)]
pub struct Store<B> {
    slab: Slab<B>,
}

impl<B> Model for Store<B> {
    ghost use Rattle.std.specs.Prelude.{◌≤◌};
    ghost use Rattle.slab.specs.Slab.{slab_len};
    ghost use Rattle.chunk_store.specs.Contents.{Contents, contents_code, contents_of};

    ghost Value = { Contents B };

    ghost coded = { contents_code B.code };

    ghost view = { λ store. contents_of store.slab };

    ghost invariant = { λ store. slab_len store.slab ≤ store.slab.capacity };
}

impl<B> Store<B> {
    ghost use Rattle.chunk_store.specs.Lends.{lends_value, lends_value_at};

    /// A store that holds nothing and has no room reserved. It takes no memory.
    pub fn new(alloc: Global) -> Store<B>
        ensures empty { result.held ≡ map.empty }
        ensures spare { result.spare ≡ 0 }
    {
        Store {
            slab: Slab::new(alloc),
        }
    }

    /// Makes room, so that at least `n` further inserts take no memory. Room that is there already counts.
    pub fn reserve(&mut self, n: u32) -> Result<(), Memory>
        ensures room { OnOk result (n ≤ self.new.spare) }
        ensures held { self.new.held ≡ self.old.held }

        // Room never shrinks, and is asked for only where there is too little.
        ensures spare { self.old.spare ≤ self.new.spare }
        ensures had_room { n ≤ self.old.spare → self.new ≡ self.old }
        ensures succeeds { n ≤ self.old.spare → IsOk result }
    {
        self.slab.reserve(n as usize)?;
        Ok(())
    }

    /// Puts a value under a key that held nothing, and answers the key. It takes no memory.
    pub fn insert_reserved(&mut self, value: B) -> u64
        requires { 1 ≤ self.old.spare }
        ensures free { value_at self.old result ≡ None }
        ensures inserted { self.new.held ≡ map.insert self.old.held result value }
        ensures spare { self.new.spare + 1 ≡ self.old.spare }

        // The same, key by key and in numbers.
        ensures values { (key : ℕ) → value_at self.new key ≡ (if key == result then Some value else value_at self.old key) }
        ensures count { count_of self.new ≡ count_of self.old + 1 }
    {
        self.slab.insert_reserved(value) as u64
    }

    /// The value under a key; `None` exactly where the key holds nothing.
    pub fn get(&self, key: u64) -> Option<&B>
        ensures { option_copied result ≡ value_at self.now key }
    {
        self.slab.get(key as usize)
    }

    /// The value under a key, for writing; `None` exactly where the key holds nothing. Nothing but what is
    /// written through it changes.
    pub fn get_mut(&mut self, key: u64) -> Option<&mut B>
        ensures* writes_back { sem 𝓛 (lends_value_at B.row self.entry key result) }
        ensures value { option_copied_mut result ≡ value_at self.old key }
    {
        if self.slab.contains(key as usize) {
            Some(self.value_mut(key))
        } else {
            None
        }
    }

    // The value under a key that holds one, for writing.
    fn value_mut(&mut self, key: u64) -> &mut B
        requires { IsSome (value_at self.old key) }
        ensures* writes_back { sem 𝓛 (lends_value B.row self.entry key result) }
        ensures value { value_at self.old key ≡ Some result.now }
    {
        &mut self.slab[key as usize]
    }

    /// Takes out the value under a key and leaves its room to later inserts; `None` exactly where the key holds
    /// nothing.
    pub fn remove(&mut self, key: u64) -> Option<B>
        ensures value { result ≡ value_at self.old key }
        ensures removed { self.new.held ≡ map.remove self.old.held key }
        ensures spare { OnSome result (self.new.spare ≡ self.old.spare + 1) }
        ensures absent { IfNone result (self.new ≡ self.old) }

        // The same, key by key and in numbers.
        ensures values { (other : ℕ) → value_at self.new other ≡ (if other == key then None else value_at self.old other) }
        ensures count { OnSome result (count_of self.new + 1 ≡ count_of self.old) }
    {
        self.slab.try_remove(key as usize)
    }

    /// How many keys hold a value.
    pub fn len(&self) -> usize
        ensures { result ≡ count_of self.now }
    {
        self.slab.len()
    }

    /// Whether no key holds a value.
    pub fn is_empty(&self) -> bool
        ensures { result ≡ (count_of self.now == 0) }
    {
        self.slab.is_empty()
    }
}
