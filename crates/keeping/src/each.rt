// The passes over single references and single nodes, and the search for equal nodes. Assumes nothing.
ghost use Rattle.std.specs.Prelude.{◌≡◌, true, ◌+◌, ◌*◌, ◌-◌, ◌/◌, ◌<◌, ◌≤◌, length};
ghost use Rattle.trees.specs.Kept.{above, node_right};
ghost use Rattle.nodes.specs.Nodes.{Between, Decides};
ghost use Rattle.nodes.specs.Chains.{Chained};
ghost use Rattle.keeping.specs.Checks.{Inside, ZeroFrom, Right, Apart, Sized};

use nodes::Node;
use nodes::chain::{join, seek, slot};

// Whether the rows' references lead to kept nodes or leaves.
pub fn inside(rows: &[u32], kept: u32) -> bool
    requires { kept ≤ 4096 }
    ensures { Decides (Inside rows.now (length rows.now) kept) result }
{
    rows.iter().all(|r| *r < kept + 2)
}

// Whether the numbers are 0. They are or-ed together with no way out, so that many are read at once.
pub fn all_zero(xs: &[u32]) -> bool
    ensures { Decides (ZeroFrom 0 xs.now) result }
{
    xs.iter().fold(0, |all, x| all | *x) == 0
}

// Whether a reference leads to a level above this one, or to a leaf.
fn leads_above(nodes: &[u32], level: u32, r: u32) -> bool
    requires { 3 * (r - 2) < length nodes.now }
    ensures { result ≡ above nodes.now level r }
{
    if r < 2 {
        return true;
    }
    let i = 3 * (r as usize - 2);
    level < nodes[i]
}

// Whether the node at place j is right by itself.
fn node_right(nodes: &[u32], j: u32) -> bool
    requires { (3 * j + 2 < length nodes.now) × (length nodes.now ≤ 12288) }
    ensures { result ≡ node_right nodes.now j }
{
    let i = 3 * (j as usize);
    let level = nodes[i];
    let low = nodes[i + 1];
    let high = nodes[i + 2];
    if low == high {
        return false;
    }
    if j + 2 <= low {
        return false;
    }
    if !leads_above(nodes, level, low) {
        return false;
    }
    if j + 2 <= high {
        return false;
    }
    leads_above(nodes, level, high)
}

// Whether each of the first n nodes is right by itself, and its level below `levels`.
pub fn all_right(nodes: &[u32], n: u32, levels: u32) -> bool
    requires { (3 * n ≤ length nodes.now) × (length nodes.now ≤ 12288) }
    ensures { Decides (Right nodes.now n levels) result }
{
    for j in 0..n {
        if !node_right(nodes, j) {
            return false;
        }
        if levels <= nodes[3 * j as usize] {
            return false;
        }
    }
    true
}

// Whether no two of the first n nodes are equal. Each place is chained from the head of its node's bucket, so only that chain
// is walked. With c nodes in the slice the heads stand in `work` from 13 * c on, and the links from 14 * c on; where all
// differ, all are chained.
pub fn all_differ(nodes: &[u32], n: u32, work: &mut [u32]) -> bool
    requires { Sized nodes.now work.old × (3 * n ≤ length nodes.now) }
    ensures decides { Decides (Apart nodes.now n) result }
    ensures between { Between (13 * (length nodes.now / 3)) (15 * (length nodes.now / 3)) work.old work.new }
    ensures chained { result ≡ true → Chained nodes.now n work.new }
{
    let c = nodes.len() / 3;
    let links = 14 * c;
    work[13 * c..links].fill(0);
    for j in 0..n {
        let i = 3 * (j as usize);
        let node = Node {
            level: nodes[i],
            low: nodes[i + 1],
            high: nodes[i + 2],
        };
        let head = 13 * c + slot(node.level, node.low, node.high, c);
        if seek(nodes, work, links, work[head], node).is_some() {
            return false;
        }
        join(work, head, links, j);
    }
    true
}
