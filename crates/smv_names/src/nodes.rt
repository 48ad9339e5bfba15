//! Numbers of abbreviations: the entries of all instances, in instantiation order.

ghost use Rattle.std.specs.Prelude.{◌≡◌, ◌+◌, ◌<◌, length, slice_get, IfOk, Some};
ghost use Rattle.smv_instances.specs.Program.{Program as Plain};
ghost use Rattle.smv_instances.specs.Entries.{Entry, entries};
ghost use Rattle.smv_instances.specs.Instances.{Scope, all_entries, module_of};
ghost use Rattle.smv_instances.specs.Numbered.{scope_at};
ghost use Rattle.smv_instances.specs.Built.{AreInstances};
ghost use Rattle.smv_names.specs.Nodes.{AreNodes, IsBetween, IsNode, IsPlaced};

use smv_instances::Instances;
use std::alloc::{AllocError, Global};

/// The numbers of abbreviations.
#[derive(Drop)]
pub struct Nodes {
    /// The number of the first entry of each instance.
    pub firsts: Vec<usize>,
    /// How many entries there are.
    pub count: usize,
}

impl Nodes {
    /// The numbers of all entries. Where they don't fit, it is answered as want of memory.
    pub fn build(alloc: Global, instances: &Instances<'_>) -> Result<Nodes, AllocError>
        requires { (p : Plain) × AreInstances p instances.now }
        ensures { (p : Plain) → AreInstances p instances.now → IfOk result (AreNodes p) }
    {
        let mut firsts = Vec::new(alloc);
        let mut count: usize = 0;
        for i in 0..instances.len() {
            firsts.push(count)?;
            let size = instances.entries(i).len();
            let Some(more) = count.checked_add(size) else {
                return Err(AllocError);
            };
            count = more;
        }
        Ok(Nodes { firsts, count })
    }

    /// The number of an entry of an instance.
    pub fn node(&self, i: usize, k: usize) -> usize
        requires { (p : Plain) × (s : Scope) × (e : Entry) × AreNodes p self.now
            × (scope_at p i ≡ Some s) × (slice_get (entries (module_of s)) k ≡ Some e) }
        ensures { (p : Plain) (s : Scope) → AreNodes p self.now → scope_at p i ≡ Some s
            → IsNode p s k result }
    {
        let _count = self.count;
        self.firsts[i] + k
    }

    /// The instance in whose body the entry with this number stands.
    fn home(&self, node: usize) -> usize
        requires { (p : Plain) × AreNodes p self.now × (node < length (all_entries p)) }
        ensures inside { result < length self.now.firsts.items }
        ensures between { (p : Plain) → AreNodes p self.now → node < length (all_entries p)
            → IsBetween p node result (result + 1) }
    {
        let mut low = 0;
        let mut high = self.firsts.len();
        while high - low > 1 {
            let middle = low + (high - low) / 2;
            if self.firsts[middle] <= node {
                low = middle;
            } else {
                high = middle;
            }
        }
        low
    }

    /// The instance in whose body the entry with this number stands, and its place there.
    pub fn entry(&self, node: usize) -> (usize, usize)
        requires { (p : Plain) × AreNodes p self.now × (node < length (all_entries p)) }
        ensures { (p : Plain) → AreNodes p self.now → node < length (all_entries p)
            → IsPlaced p node result.0 result.1 }
    {
        let i = self.home(node);
        (i, node - self.firsts[i])
    }
}
