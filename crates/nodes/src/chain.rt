// Chains of nodes in the work slice: a node's bucket, the search along a chain, and how a place joins one. A chain holds places
// plus 1, and 0 ends it. Assumes nothing.
ghost use Rattle.std.specs.Prelude.{◌≡◌, ◌+◌, ◌*◌, ◌<◌, ◌≤◌, length};
ghost use Rattle.nodes.specs.Nodes.{Holds};
ghost use Rattle.nodes.specs.Chains.{spread, Walkable, Sought, joined};

use crate::Node;

// The bucket of three numbers among `size`: the products spread each number over 32 bits, and the sum's share of 2 ^ 32 is the
// bucket's share of `size`, so no division is made.
pub fn slot(a: u32, b: u32, c: u32, size: usize) -> usize
    requires { (0 < size) × (size ≤ 8192) }
    ensures upper_bound { result < size }
    ensures value { result ≡ spread a b c size }
{
    let mixed = a as usize * 625341585 + b as usize * 668265263 + c as usize * 374761393;
    mixed % 4294967296 * size / 4294967296
}

// Whether the node at place j is this one. The low sides differ most, the levels least.
pub fn holds(nodes: &[u32], j: usize, node: Node) -> bool
    requires { 3 * j + 2 < length nodes.now }
    ensures { Holds nodes.now j node.level node.low node.high result }
{
    let i = 3 * j;
    nodes[i + 1] == node.low && nodes[i + 2] == node.high && nodes[i] == node.level
}

// The first place on the chain from `first` on that holds the node, where one does. The link of place j stands at links + j.
pub fn seek(nodes: &[u32], work: &[u32], links: usize, first: u32, node: Node) -> Option<u32>
    requires { Walkable nodes.now links work.now first }
    ensures { Sought nodes.now links work.now node.level node.low node.high first result }
{
    let mut p = first;
    while p != 0 {
        let j = p - 1;
        if holds(nodes, j as usize, node) {
            return Some(j);
        }
        p = work[links + j as usize];
    }
    None
}

// Chains place j from the head that stands at `head`: it is the new head, and the old one is its link.
pub fn join(work: &mut [u32], head: usize, links: usize, j: u32)
    requires { (head < links) × (links + j < length work.old) × (j < 4096) }
    ensures { work.new ≡ joined work.old head links j }
{
    let i = links + j as usize;
    work[i] = work[head];
    work[head] = j + 1;
}
