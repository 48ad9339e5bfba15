//! Names in the order of their first places.

ghost use Rattle.std.specs.Prelude.{◌≡◌, ◌<◌, ◌++◌, ◌∷◌, [], length, not, if◌then◌else◌, IfOk, IfSome, IfNone, Some, false, is_some, slice_get};
ghost use Rattle.std.specs.List.{list_any};
ghost use Rattle.std.specs.Str.{bytes_eq};
ghost use Rattle.smv_instances.specs.Instances.{place_of};

use indexmap::IndexSet;
use std::alloc::{AllocError, Global};
use std::marker::Model;

/// Names, each once. Contracts see the list of them.
#[derive(Drop)]
pub struct Names<'p> {
    set: IndexSet<&'p str>,
}

impl<'p> Model for Names<'p> {
    ghost use Rattle.std.specs.Prelude.{List, ℕ, map};

    ghost Value = { List (List ℕ) };

    ghost view = { λ n. map (λ k. k.now) n.set.keys };
}

impl<'p> Names<'p> {
    pub fn new(alloc: Global) -> Names<'p>
        ensures { result ≡ [] }
    {
        Names {
            set: IndexSet::new(alloc),
        }
    }

    /// Adds a name at the end, and says whether it is new.
    pub fn insert(&mut self, name: &'p str) -> Result<bool, AllocError>
        ensures added { IfOk result
            (λ is_new. is_new ≡ not (list_any (bytes_eq name.now) self.old)) }
        ensures names { IfOk result
            (λ is_new. self.new ≡ (if is_new then self.old ++ name.now ∷ [] else self.old)) }
    {
        let (_, is_new) = self.set.insert_full(name)?;
        Ok(is_new)
    }

    pub fn len(&self) -> usize
        ensures { result ≡ length self.now }
    {
        self.set.len()
    }

    /// The name at a place.
    pub fn name_at(&self, place: usize) -> &'p str
        requires { place < length self.now }
        ensures { slice_get self.now place ≡ Some result.now }
    {
        match self.set.get_index(place) {
            Some(name) => *name,
            None => unreachable!(),
        }
    }

    /// Whether a name is there.
    pub fn contains(&self, name: &str) -> bool
        ensures { result ≡ list_any (bytes_eq name.now) self.now }
    {
        self.place(name).is_some()
    }

    /// Where a name stands.
    pub fn place(&self, name: &str) -> Option<usize>
        ensures place { IfSome result (λ k. k ≡ place_of self.now name.now) }
        ensures within { IfSome result (λ k. k < length self.now) }
        ensures found { is_some result ≡ list_any (bytes_eq name.now) self.now }
        ensures none { IfNone result (list_any (bytes_eq name.now) self.now ≡ false) }
    {
        self.set.get_index_of(name)
    }
}
