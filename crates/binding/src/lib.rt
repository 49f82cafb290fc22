// Which lot broke it: the first binding, in order of numbers, for which a diagram of the kept table says yes. Each bit in turn,
// from the most significant of the outermost variable down, is fixed to 0 where the diagram can still say yes, and else to 1;
// whether it can is one pass over the nodes, children first. Nothing is made, and nothing calls itself. Assumes nothing.
#![tactic(auto)]

mod possible; // the pass

ghost use Rattle.std.specs.Prelude.{◌≡◌, true, ℕ, ◌+◌, ◌*◌, ◌<◌, ◌≤◌, length, get_or};
ghost use Rattle.trees.specs.Tree.{eval, Fine};
ghost use Rattle.trees.specs.Table.{at, trees_of};
ghost use Rattle.nodes.specs.Nodes.{Rest};
ghost use Rattle.binding.specs.First.{Order, First};
ghost use Rattle.binding.specs.Fixing.{can, Free, Settles, Fixes};

use crate::possible::possible;
use nodes::table::Nodes;

// Fixes the bit at a level: to 0 where the diagram can still say yes, and else to 1. Gives the bit.
fn settle(
    nodes: Nodes,
    p: u32,
    level: u32,
    fixed: &mut [Option<bool>; 40],
    work: &mut [u32],
) -> bool
    requires p_bound { (p < nodes.count + 2) × (nodes.count + 2 ≤ length work.old) }
    requires level_bound { (level < 40) × (length fixed.old ≡ 40) }
    ensures settles { Settles (at (trees_of nodes.entry.slice.now nodes.entry.count) p) level fixed.old fixed.new result }
    ensures rest { Rest (nodes.entry.count + 2) work.old work.new }
{
    let l = level as usize;
    fixed[l] = Some(false);
    if possible(nodes, p, fixed, work) {
        return false;
    }
    fixed[l] = Some(true);
    true
}

// Fixes the bits of the variable v, which are open, to the least number for which the diagram can say yes. Gives the number.
fn least(
    nodes: Nodes,
    p: u32,
    k: u32,
    v: u32,
    fixed: &mut [Option<bool>; 40],
    work: &mut [u32],
) -> u32
    requires fine { Fine 0 (4 * k) (at (trees_of nodes.slice.now nodes.count) p) }
    requires p_bound { (p < nodes.count + 2) × (nodes.count + 2 ≤ length work.old) }
    requires k_bound { (k ≤ 10) × (v < 4) × (length fixed.old ≡ 40) }
    requires p_value { can fixed.old (at (trees_of nodes.slice.now nodes.count) p) ≡ true }
    requires free { Free (v * k) k fixed.old }
    ensures fixes { Fixes (at (trees_of nodes.entry.slice.now nodes.entry.count) p) (v * k) k fixed.old fixed.new result }
    ensures rest { Rest (nodes.entry.count + 2) work.old work.new }
{
    let base = v * k;
    let mut n = 0;
    for level in (base..base + k).rev() {
        let bit = settle(nodes, p, level, fixed, work);
        n = 2 * n + u32::from(bit);
    }
    n
}

// The first binding of the first `count` variables of `order`, the outermost first, for which the diagram of p says yes; 0 past
// them. The first nodes.count + 2 numbers of `work` are changed.
pub fn first(
    nodes: Nodes,
    p: u32,
    k: u32,
    order: &[u32; 4],
    count: u32,
    work: &mut [u32],
) -> [u32; 4]
    requires fine { Fine 0 (4 * k) (at (trees_of nodes.slice.now nodes.count) p) }
    requires p_nonzero { (0 < p) × (p < nodes.count + 2) × (nodes.count + 2 ≤ length work.old) }
    requires k_bound { (k ≤ 10) × (count ≤ 4) × (length order.now ≡ 4) × Order order.now count }
    ensures first { First k (eval (at (trees_of nodes.entry.slice.now nodes.entry.count) p)) order.now count result }
    ensures by_index { (i : ℕ) → count ≤ i → get_or result i 0 ≡ 0 }
    ensures rest { Rest (nodes.entry.count + 2) work.old work.new }
{
    let mut fixed = [None; 40];
    let mut answer = [0; 4];
    for j in 0..count as usize {
        let n = least(nodes, p, k, order[j], &mut fixed, work);
        answer[j] = n;
    }
    answer
}
