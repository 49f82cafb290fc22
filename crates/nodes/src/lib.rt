// A slice of nodes, three numbers a node: reading one, clearing a part of a slice, and chains of nodes from buckets. The node at place j
// is nodes[3 * j], its level, nodes[3 * j + 1] and nodes[3 * j + 2], the references for bit 0 and bit 1. References 0 and 1 are no
// and yes, and j + 2 is the node at place j. Assumes nothing.
#![tactic(auto)]

ghost use Rattle.std.specs.Prelude.{◌+◌, ◌<◌, ◌≤◌, length};
ghost use Rattle.nodes.specs.Nodes.{Table, Splits, Zeroed};

pub mod chain;
pub mod table;

use table::Nodes;

// A node's three numbers.
#[derive(Clone, Copy, PartialEq, Eq)]
pub struct Node {
    pub level: u32,
    pub low: u32,
    pub high: u32,
}

// Sets the numbers from `from` on and before `to` to 0.
pub fn zero(xs: &mut [u32], from: usize, to: usize)
    requires { to ≤ length xs.old }
    ensures { Zeroed from to xs.old xs.new }
{
    if from < to {
        xs[from..to].fill(0);
    }
}

// The three numbers of the node that r leads to.
pub fn read(nodes: &[u32], m: u32, r: u32) -> Node
    requires table { Table nodes.now m }
    requires le_r { (2 ≤ r) × (r < m + 2) }
    ensures { Splits nodes.now m r result.level result.low result.high }
{
    Nodes {
        slice: nodes,
        count: m,
    }
    .read(r)
}
