// What is lent to a store. The firmware lends each slice by itself; here the two slices of a tree travel together.
ghost use Rattle.std.specs.Prelude.{◌≡◌};
ghost use Rattle.store.specs.Trees.{lent_to};
ghost use Rattle.store.specs.Lending.{words_of, words_in, store_seen};

use crate::types::{Head, TreeName};

// The memory of a tree, to write: its page table and its root list.
#[derive(Drop)]
pub struct TreeMemory<'a> {
    pub table: &'a mut [u64],
    pub roots: &'a mut [u64],
}

// The same, to read.
#[derive(Clone, Copy)]
pub struct TreeView<'a> {
    pub table: &'a [u64],
    pub roots: &'a [u64],
}

impl<'a> TreeMemory<'a> {
    // What is lent, to read.
    pub fn view(&self) -> TreeView<'_>
        ensures { words_in result ≡ words_of self.now }
    {
        TreeView {
            table: &*self.table,
            roots: &*self.roots,
        }
    }
}

// A store to read: its head, and the memory of its trees.
#[derive(Clone, Copy)]
pub struct StoreView<'a> {
    pub head: &'a Head,
    pub starts: TreeView<'a>,
    pub ends: TreeView<'a>,
    pub time: TreeView<'a>,
}

impl<'a> StoreView<'a> {
    // What is lent to a tree.
    pub fn lent_to(&self, tree: TreeName) -> TreeView<'a>
        ensures { words_in result ≡ lent_to (store_seen self.now).lent tree }
    {
        match tree {
            TreeName::Starts => self.starts,
            TreeName::Ends => self.ends,
            TreeName::Time => self.time,
        }
    }
}
