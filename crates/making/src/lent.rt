// The slices that a caller lends, and how many nodes of the first are the table. Assumes that the first `count` nodes are a table,
// chained in the work slice.
ghost use Rattle.std.specs.Prelude.{◌+◌, ◌*◌, ◌<◌, ◌≤◌, length};
ghost use Rattle.trees.specs.Tree.{mk};
ghost use Rattle.trees.specs.Table.{at, trees_of};
ghost use Rattle.nodes.specs.Nodes.{Table, Splits, Sides};
ghost use Rattle.making.specs.Tables.{Added, Shelf, Shelved, Looked, Kept};
ghost use Rattle.making.specs.Loans.{SameLoans, made};

use crate::memory::{Key, note, recall};
use crate::table::{make, sides};
use nodes::{Node, read};

// Where the parts of the work slice stand, and how long they are: the node slice has room for c nodes, and the memory of results has
// so many slots.
#[derive(Clone, Copy)]
pub struct Layout {
    pub c: usize,
    pub slots: usize,
}

// The node slice, the work slice, and how many nodes are the table.
#[derive(Drop)]
pub struct Lent<'a> {
    pub nodes: &'a mut [u32],
    pub work: &'a mut [u32],
    pub count: u32,
}

impl Lent<'_> {
    // The three numbers of the node that r leads to.
    pub fn read(&self, r: u32) -> Node
        requires table { Table self.now.nodes.now self.now.count }
        requires le_r { (2 ≤ r) × (r < self.now.count + 2) }
        ensures { Splits self.now.nodes.now self.now.count r result.level result.low result.high }
    {
        read(self.nodes, self.count, r)
    }

    // The two sides of r at a level that is no later than its first: r itself where it does not ask the level.
    pub fn sides(&self, r: u32, level: u32) -> Node
        requires table { Table self.now.nodes.now self.now.count }
        requires r_bound { r < self.now.count + 2 }
        ensures { Sides self.now.nodes.now self.now.count r level result.low result.high }
    {
        sides(self.nodes, self.count, r, level)
    }

    // The reference of the result that the slot at place i has for a key.
    pub fn recall(&self, i: usize, key: Key) -> Option<u32>
        requires { i + 3 < length self.now.work.now }
        ensures { Looked self.now.work.now i key.first key.second key.third result }
    {
        recall(self.work, i, key)
    }

    // The node x, made: none where the slice is full.
    pub fn make(&mut self, c: usize, x: Node) -> Option<u32>
        requires shelf { Shelf self.old.nodes.now self.old.count self.old.work.now c }
        requires low_bound { (x.low < self.old.count + 2) × (x.high < self.old.count + 2) }
        ensures same { SameLoans self.old self.new }
        ensures added { Added (λ ns j. Shelved self.old.work.now ns j self.new.work.now c) self.old.nodes.now self.new.nodes.now self.old.count (mk x.level (at (trees_of self.old.nodes.now self.old.count) x.low) (at (trees_of self.old.nodes.now self.old.count) x.high)) (made self.new.count result) }
    {
        let n = self.count;
        let nodes = &mut *self.nodes;
        let work = &mut *self.work;
        let made = make(nodes, work, c, n, x)?;
        self.count = made.count;
        Some(made.reference)
    }

    // The node x, made, and written down at place i as the result of a key.
    pub fn keep(&mut self, c: usize, i: usize, key: Key, x: Node) -> Option<u32>
        requires shelf { Shelf self.old.nodes.now self.old.count self.old.work.now c }
        requires low_bound { (x.low < self.old.count + 2) × (x.high < self.old.count + 2) }
        requires room { i + 3 < 15 * c }
        ensures same { SameLoans self.old self.new }
        ensures kept { Kept self.old.nodes.now self.new.nodes.now self.old.count (mk x.level (at (trees_of self.old.nodes.now self.old.count) x.low) (at (trees_of self.old.nodes.now self.old.count) x.high)) self.old.work.now self.new.work.now c i key.first key.second key.third (made self.new.count result) }
    {
        let reference = self.make(c, x)?;
        let work = &mut *self.work;
        note(work, i, key, reference);
        Some(reference)
    }
}
