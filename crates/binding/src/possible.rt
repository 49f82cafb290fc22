// Whether a diagram can say yes with some bits fixed: one pass over the nodes, children first, a mark a reference. The bit at a
// level is fixed or open; the levels past the array are open. Assumes nothing.
ghost use Rattle.std.specs.Prelude.{◌≡◌, Bool, Option, Some, None, ◌+◌, ◌<◌, ◌≤◌, length, get_or};
ghost use Rattle.trees.specs.Bits.{bit};
ghost use Rattle.trees.specs.Table.{at, trees_of};
ghost use Rattle.nodes.specs.Nodes.{Rest};
ghost use Rattle.binding.specs.Fixing.{either, can, Marks};

use nodes::table::Nodes;

// What the bit at a level is fixed to, where it is.
fn fixed_at(fixed: &[Option<bool>; 40], level: u32) -> Option<bool>
    requires { length fixed.now ≡ 40 }
    ensures { result ≡ get_or fixed.now level None }
{
    if 40 <= level {
        return None;
    }
    fixed[level as usize]
}

// The mark of a node, from what its bit is fixed to and its sides' marks.
fn mark(fixed: Option<bool>, low: u32, high: u32) -> u32
    ensures { (a b : Bool) → low ≡ bit a → high ≡ bit b → result ≡ bit (either fixed a b) }
{
    match fixed {
        Some(false) => low,
        Some(true) => high,
        None => low.max(high),
    }
}

// The mark of the node r, where the references before it are marked.
fn node_mark(nodes: Nodes, r: u32, fixed: &[Option<bool>; 40], work: &[u32]) -> u32
    requires marks { Marks nodes.slice.now nodes.count fixed.now work.now r }
    requires le_r { (2 ≤ r) × (r < nodes.count + 2) × (nodes.count + 2 ≤ length work.now) × (length fixed.now ≡ 40) }
    ensures { result ≡ bit (can fixed.now (at (trees_of nodes.entry.slice.now nodes.entry.count) r)) }
{
    let x = nodes.read(r);
    mark(
        fixed_at(fixed, x.level),
        work[x.low as usize],
        work[x.high as usize],
    )
}

// Whether the diagram of p can say yes. The nodes past p's place are no part of it, and are not looked at.
pub fn possible(nodes: Nodes, p: u32, fixed: &[Option<bool>; 40], work: &mut [u32]) -> bool
    requires p_bound { (p < nodes.count + 2) × (nodes.count + 2 ≤ length work.old) × (length fixed.now ≡ 40) }
    ensures value { result ≡ can fixed.now (at (trees_of nodes.entry.slice.now nodes.entry.count) p) }
    ensures rest { Rest (nodes.entry.count + 2) work.old work.new }
{
    work[0] = 0;
    work[1] = 1;
    for r in 2..p + 1 {
        let mark = node_mark(nodes, r, fixed, work);
        work[r as usize] = mark;
    }
    work[p as usize] == 1
}
