// Whether a diagram tells a number of a variable apart from the reserved one, all ones. The variable's k bits stand at the levels
// from `base` on. The entries, where the diagram comes to these levels or passes them, are found once for a diagram and a
// variable; then each number is followed from each entry. No node is made. Assumes that the kept nodes are a table.
#![tactic(auto)]

ghost use Rattle.std.specs.Prelude.{◌≡◌, ◌+◌, ◌-◌, ◌^◌, ◌<◌, ◌≤◌, cond, length};
ghost use Rattle.trees.specs.Table.{at, trees_of};
ghost use Rattle.nodes.specs.Nodes.{Rest, To};
ghost use Rattle.telling.specs.Follow.{bit_of, follow, untold};
ghost use Rattle.telling.specs.Entries.{Ordered, Passed, Entries};

use nodes::table::Nodes;

// The pass at the reference r: where it is marked, it is an entry, or both its sides are marked. The entries found so far stand from
// `from` on. Gives their first place.
fn pass(nodes: Nodes, base: u32, r: u32, work: &mut [u32], from: usize) -> usize
    requires { (2 ≤ r) × (r < nodes.count + 2) × (r < from) × (from ≤ length work.old) }
    ensures { Passed nodes.entry.slice.now nodes.entry.count base r work.old from work.new result }
{
    let i = r as usize;
    if work[i] == 0 {
        return from;
    }
    let x = nodes.read(r);
    if x.level < base {
        work[x.low as usize] = 1;
        work[x.high as usize] = 1;
        return from;
    }
    let to = from - 1;
    work[to] = r;
    to
}

// Finds the entries of p's diagram. Uses the first p + 1 numbers of `work`, whatever they were: the entries are left from the
// place returned on up to p, each once, and marks before them. A reference leads to smaller ones, so its mark is final when the
// pass, which goes down from p, comes to it; and the entries found by then stand in places that were passed. A leaf leads to
// itself whatever the bits are, so it is not listed.
pub fn enter(nodes: Nodes, p: u32, base: u32, work: &mut [u32]) -> usize
    requires bounds { (p < nodes.count + 2) × (p < length work.old) }
    requires ordered { Ordered 0 (at (trees_of nodes.slice.now nodes.count) p) }
    ensures entries { Entries nodes.entry.slice.now nodes.entry.count p base work.new result }
    ensures rest { Rest (p + 1) work.old work.new }
{
    let i = p as usize;
    work[..i].fill(0);
    work[i] = 1;
    let mut from = i + 1;
    for r in (2..p + 1).rev() {
        from = pass(nodes, base, r, work, from);
    }
    from
}

// The side for bit j of n.
fn chosen(n: u32, j: u32, low: u32, high: u32) -> u32
    requires { j < 32 }
    ensures { result ≡ cond (bit_of n j) high low }
{
    if (n >> j) % 2 == 0 { low } else { high }
}

// The reference that n's bits lead to from r on, past the variable's levels.
fn along(nodes: Nodes, base: u32, k: u32, n: u32, r: u32) -> u32
    requires bounds { (r < nodes.count + 2) × (k < 32) × (base + k < 4294967296) }
    requires ordered { Ordered base (at (trees_of nodes.slice.now nodes.count) r) }
    ensures { To nodes.entry.slice.now nodes.entry.count result (follow base k n (at (trees_of nodes.entry.slice.now nodes.entry.count) r)) }
{
    let mut q = r;
    while 2 <= q {
        let x = nodes.read(q);
        if base + k <= x.level {
            return q;
        }
        q = chosen(n, x.level - base, x.low, x.high);
    }
    q
}

// Whether p's diagram says the same with the variable's bits showing n as with all of them 1, however the other bits are set.
// `work` has the diagram's entries from `from` on, as `enter` leaves them. Two references into a table are equal exactly if what
// they say is.
pub fn alike(nodes: Nodes, p: u32, base: u32, k: u32, n: u32, work: &[u32], from: usize) -> bool
    requires bounds { (k < 32) × (base + k < 4294967296) }
    requires entries { Entries nodes.slice.now nodes.count p base work.now from }
    ensures { result ≡ untold base k n (2 ^ k - 1) (at (trees_of nodes.entry.slice.now nodes.entry.count) p) }
{
    let ones = (1 << k) - 1;
    let end = p as usize + 1;
    for r in &work[from..end] {
        if along(nodes, base, k, n, *r) != along(nodes, base, k, ones, *r) {
            return false;
        }
    }
    true
}
