//! A level of the tree: its nodes from the first span on.

ghost use Rattle.std.specs.Prelude.{◌≡◌, ◌<◌, ◌≤◌, ℕ, IfOk, [], length, slice_set};
ghost use Rattle.write_index.specs.Pages.{pages_at};
ghost use Rattle.write_index.specs.Tree.{Keeps};

use crate::page_set::PageSet;
use std::alloc::{AllocError, Global};
use std::marker::Model;

/// The nodes of a level. Those after the last whole one are room.
#[derive(Drop)]
pub(crate) struct Level {
    nodes: Vec<PageSet>,
}

impl Model for Level {
    ghost use Rattle.std.specs.Prelude.{List, ℕ};

    ghost Value = { List (List ℕ) };

    ghost view = { λ level. level.nodes.items };
}

impl Level {
    /// No nodes. It takes no memory.
    pub(crate) fn new(alloc: Global) -> Level
        ensures { result ≡ [] }
    {
        Level {
            nodes: Vec::new(alloc),
        }
    }

    /// The pages of a node.
    pub(crate) fn node(&self, node: usize) -> &PageSet
        requires { node < length self.now }
        ensures { result.now ≡ pages_at self.now node }
    {
        &self.nodes[node]
    }

    /// Makes room for `count` nodes.
    pub(crate) fn grow(&mut self, alloc: Global, count: usize) -> Result<(), AllocError>
        ensures kept { Keeps self.old self.new }
        ensures room { IfOk result (λ _. count ≤ length self.new) }
    {
        while self.nodes.len() < count {
            self.nodes.push(PageSet::empty(alloc))?;
        }
        Ok(())
    }

    /// Puts a node in its place.
    pub(crate) fn put(&mut self, node: usize, set: PageSet)
        requires { node < length self.old }
        ensures { self.new ≡ slice_set self.old node set }
    {
        self.nodes[node] = set;
    }
}
