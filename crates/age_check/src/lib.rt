// Whether age diagrams pass the test of refusal 4: at most one age for a binding, and none that its row can't have. One pass from the leaves up
// marks each kept node, children before parents; then each row's mark is compared with its greatest age. So it is linear in the
// kept nodes. The bindings' levels are those before `base`, and an age has the 11 levels from `base` on. Assumes nothing.
#![tactic(auto)]

ghost use Rattle.std.specs.Prelude.{◌≡◌, ℕ, ◌+◌, ◌-◌, ◌<◌, ◌≤◌, length, get_or};
ghost use Rattle.trees.specs.Table.{at, trees_of};
ghost use Rattle.nodes.specs.Nodes.{Rest, Decides};
ghost use Rattle.ages.proofs.AgeRead.{read_age};
ghost use Rattle.age_check.specs.Marks.{numbered, oldest, mark, Coded, Marked, AgesRight};

use nodes::table::Nodes;

// The mark that stands in the work slice for a diagram that gives a binding something else than one age.
const UNFIT: u32 = 4096;

// The mark of a reference; None for an unfit one.
fn marked(work: &[u32], r: u32) -> Option<u32>
    requires { r < length work.now }
    ensures { Coded result (get_or work.now r 0) }
{
    match work[r as usize] {
        UNFIT => None,
        mark => Some(mark),
    }
}

// One more than the greatest age of p's diagram, where the first m references are marked; None where it is unfit.
fn age_of(nodes: Nodes, base: u32, p: u32, work: &[u32], m: u32) -> Option<u32>
    requires bounds { (p < nodes.count + 2) × (p < m) × (m ≤ length work.now) }
    requires marked { Marked base nodes.slice.now nodes.count work.now m }
    ensures { Coded result (oldest base (at (trees_of nodes.entry.slice.now nodes.entry.count) p)) }
{
    if p < 2 {
        return marked(work, p);
    }
    let x = nodes.read(p);
    if base < x.level {
        return None;
    }
    marked(work, p)
}

// One more than the number that p's diagram shows as the bits of an age after the level l; None where it shows none.
fn bits_of(nodes: Nodes, base: u32, l: u32, p: u32, work: &[u32], m: u32) -> Option<u32>
    requires bounds { (p < nodes.count + 2) × (p < m) × (m ≤ length work.now) }
    requires base_bound { (base ≤ 64) × (base ≤ l) × (l < base + 11) × Marked base nodes.slice.now nodes.count work.now m }
    ensures { Coded result (numbered (read_age (l + 1) (base + 10 - l) (at (trees_of nodes.entry.slice.now nodes.entry.count) p))) }
{
    if l == base + 10 {
        if p == 1 {
            return Some(1);
        }
        return None;
    }
    if p < 2 {
        return None;
    }
    let x = nodes.read(p);
    if x.level != l + 1 {
        return None;
    }
    marked(work, p)
}

// The mark of the node that r leads to, where the references before it are marked; None where it is unfit.
fn weigh(nodes: Nodes, base: u32, r: u32, work: &[u32]) -> Option<u32>
    requires bounds { (2 ≤ r) × (r < nodes.count + 2) × (r ≤ length work.now) }
    requires base_bound { (base ≤ 64) × Marked base nodes.slice.now nodes.count work.now r }
    ensures { Coded result (mark base (at (trees_of nodes.entry.slice.now nodes.entry.count) r)) }
{
    let x = nodes.read(r);
    if x.level < base {
        let low = age_of(nodes, base, x.low, work, r)?;
        let high = age_of(nodes, base, x.high, work, r)?;
        return Some(low.max(high));
    }
    if base + 11 <= x.level {
        return None;
    }
    if x.low == 0 {
        if x.high == 0 {
            return None;
        }
        let y = bits_of(nodes, base, x.level, x.high, work, r)?;
        return Some(2 * y);
    }
    if x.high != 0 {
        return None;
    }
    let y = bits_of(nodes, base, x.level, x.low, work, r)?;
    Some(2 * y - 1)
}

// Marks the leaves and each kept node.
fn mark_all(nodes: Nodes, base: u32, work: &mut [u32])
    requires { (nodes.count + 2 ≤ length work.old) × (base ≤ 64) }
    ensures { Marked base nodes.entry.slice.now nodes.entry.count work.new (nodes.entry.count + 2) × Rest (nodes.entry.count + 2) work.old work.new }
{
    work[0] = 0;
    work[1] = UNFIT;
    for r in 2..nodes.count + 2 {
        let mark = weigh(nodes, base, r, work);
        work[r as usize] = mark.unwrap_or(UNFIT);
    }
}

// Whether each row's greatest age is one that it can have.
fn rows_right(
    nodes: Nodes,
    base: u32,
    refs: &[u32; 64],
    tops: &[u32; 64],
    count: u32,
    work: &[u32],
) -> bool
    requires bounds { (count ≤ 64) × (nodes.count + 2 ≤ length work.now) }
    requires by_index { ((i : ℕ) → i < count → (get_or refs.now i 0 < nodes.count + 2) × (get_or tops.now i 0 < 2048)) × Marked base nodes.slice.now nodes.count work.now (nodes.count + 2) }
    ensures { Decides (AgesRight base nodes.entry.slice.now nodes.entry.count refs.now tops.now count) result }
{
    for i in 0..count as usize {
        let Some(end) = age_of(nodes, base, refs[i], work, nodes.count + 2) else {
            return false;
        };
        if tops[i] + 1 < end {
            return false;
        }
    }
    true
}

// Whether the age diagrams of the first `count` rows pass the test of refusal 4, row i with ages up to tops[i]. Uses the first nodes.count + 2 numbers
// of `work`, whatever they were, and leaves marks there.
pub fn ages_right(
    nodes: Nodes,
    base: u32,
    refs: &[u32; 64],
    tops: &[u32; 64],
    count: u32,
    work: &mut [u32],
) -> bool
    requires bounds { (count ≤ 64) × (nodes.count + 2 ≤ length work.old) × (base ≤ 64) }
    requires by_index { (i : ℕ) → i < count → (get_or refs.now i 0 < nodes.count + 2) × (get_or tops.now i 0 < 2048) }
    ensures decides { Decides (AgesRight base nodes.entry.slice.now nodes.entry.count refs.now tops.now count) result }
    ensures rest { Rest (nodes.entry.count + 2) work.old work.new }
{
    mark_all(nodes, base, work);
    rows_right(nodes, base, refs, tops, count, work)
}
