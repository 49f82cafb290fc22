// A table of nodes in a slice: make a node, read it. With c nodes in the slice, the work slice has the heads of the chains
// of nodes from 13 * c on, and their links from 14 * c on. Assumes that the first n nodes are a table, chained so.
ghost use Rattle.std.specs.Prelude.{◌≡◌, ◌+◌, ◌<◌};
ghost use Rattle.trees.specs.Tree.{mk};
ghost use Rattle.trees.specs.Table.{at, trees_of};
ghost use Rattle.nodes.specs.Nodes.{Table, Sides, first_level};
ghost use Rattle.making.specs.Tables.{Added, Shelf, Shelved};

use crate::Made;
use nodes::chain::{join, seek, slot};
use nodes::{Node, read};

// The node x: the side that both its sides are, or the node found on its chain, or added after the first n and chained; none where
// the slice is full.
pub fn make(nodes: &mut [u32], work: &mut [u32], c: usize, n: u32, x: Node) -> Option<Made>
    requires shelf { Shelf nodes.old n work.old c }
    requires low_bound { (x.low < n + 2) × (x.high < n + 2) }
    ensures { Added (λ ns j. Shelved work.old ns j work.new c) nodes.old nodes.new n (mk x.level (at (trees_of nodes.old n) x.low) (at (trees_of nodes.old n) x.high)) result }
{
    if x.low == x.high {
        return Some(Made {
            count: n,
            reference: x.low,
        });
    }
    let head = 13 * c + slot(x.level, x.low, x.high, c);
    let links = 14 * c;
    if let Some(j) = seek(nodes, work, links, work[head], x) {
        return Some(Made {
            count: n,
            reference: j + 2,
        });
    }
    let i = 3 * (n as usize);
    if nodes.len() < i + 3 {
        return None;
    }
    nodes[i] = x.level;
    nodes[i + 1] = x.low;
    nodes[i + 2] = x.high;
    join(work, head, links, n);
    Some(Made {
        count: n + 1,
        reference: n + 2,
    })
}

// The first level that r asks; past all levels for a leaf.
pub fn top(nodes: &[u32], n: u32, r: u32) -> u32
    requires table { Table nodes.now n }
    requires r_bound { r < n + 2 }
    ensures { result ≡ first_level (at (trees_of nodes.now n) r) }
{
    if r < 2 {
        return u32::MAX;
    }
    let x = read(nodes, n, r);
    x.level
}

// The two sides of r at a level that is no later than its first: r itself where it does not ask the level.
pub fn sides(nodes: &[u32], n: u32, r: u32, level: u32) -> Node
    requires table { Table nodes.now n }
    requires r_bound { r < n + 2 }
    ensures { Sides nodes.now n r level result.low result.high }
{
    let whole = Node {
        level,
        low: r,
        high: r,
    };
    if r < 2 {
        return whole;
    }
    let x = read(nodes, n, r);
    if x.level != level {
        return whole;
    }
    x
}
