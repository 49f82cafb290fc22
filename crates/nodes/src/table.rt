// The table that the kept nodes of a slice are, and what it says of a reference. Assumes nothing.
ghost use Rattle.nodes.specs.Nodes.{Table};

use crate::Node;

// The first `count` nodes of a slice, which are a table.
#[derive(Clone, Copy)]
pub struct Nodes<'a> {
    pub slice: &'a [u32],
    pub count: u32,
    pub ghost table: { Table slice.now count },
}

impl Nodes<'_> {
    ghost use Rattle.std.specs.Prelude.{◌+◌, ◌<◌, ◌≤◌};
    ghost use Rattle.nodes.specs.Nodes.{Splits};

    // The three numbers of the node that r leads to.
    pub fn read(self, r: u32) -> Node
        requires { (2 ≤ r) × (r < self.count + 2) }
        ensures { Splits self.entry.slice.now self.entry.count r result.level result.low result.high }
    {
        let i = 3 * (r as usize - 2);
        Node {
            level: self.slice[i],
            low: self.slice[i + 1],
            high: self.slice[i + 2],
        }
    }
}
