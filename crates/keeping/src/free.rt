// The pass that finds whether each row asks only variables that it is allowed. A set of variables is a number, a bit a variable;
// one walk over the nodes, children before parents, marks each with the set that its diagram asks. Assumes nothing.
ghost use Rattle.std.specs.Prelude.{◌≡◌, ℕ, ◌+◌, ◌*◌, ◌/◌, ◌^◌, ◌<◌, ◌≤◌, length, get_or};
ghost use Rattle.trees.specs.Table.{at, trees_of};
ghost use Rattle.nodes.specs.Nodes.{Rest, Rows, Decides};
ghost use Rattle.keeping.specs.Checks.{has_bit, asked, Marks, RowsAllowed, Right, FreeOnly};

use nodes::table::Nodes;

// The set of a level's variable, which is level / k.
fn own(level: u32, k: u32) -> u32
    requires { (0 < k) × (k ≤ 10) × (level < 4 * k) }
    ensures { result ≡ 2 ^ (level / k) }
{
    1 << (level / k)
}

// The set that the diagram of the node at place j asks, where the references before it are marked.
fn asks(nodes: Nodes, work: &[u32], j: u32, k: u32) -> u32
    requires right { Right nodes.slice.now nodes.count (4 * k) }
    requires j_lt_count { (j < nodes.count) × (nodes.count + 2 ≤ length work.now) × (0 < k) × (k ≤ 10) }
    requires marks { Marks nodes.slice.now nodes.count k work.now j }
    ensures { (v : ℕ) → has_bit result v ≡ asked k v (at (trees_of nodes.entry.slice.now nodes.entry.count) (j + 2)) }
{
    let i = 3 * (j as usize);
    own(nodes.slice[i], k) | (work[nodes.slice[i + 1] as usize] | work[nodes.slice[i + 2] as usize])
}

// Marks the leaves and each kept node.
fn mark(nodes: Nodes, work: &mut [u32], k: u32)
    requires right { Right nodes.slice.now nodes.count (4 * k) }
    requires count_in_bounds { (nodes.count + 2 ≤ length work.old) × (0 < k) × (k ≤ 10) }
    ensures { Marks nodes.entry.slice.now nodes.entry.count k work.new nodes.entry.count × Rest (nodes.entry.count + 2) work.old work.new }
{
    work[0] = 0;
    work[1] = 0;
    for j in 0..nodes.count {
        let set = asks(nodes, work, j, k);
        work[j as usize + 2] = set;
    }
}

// Whether every row is marked with variables that it is allowed.
fn rows_allowed(work: &[u32], allowed: &[u32; 64], rows: &[u32]) -> bool
    requires few { length rows.now ≤ 64 }
    requires by_index { (i : ℕ) → i < length rows.now → get_or rows.now i 0 < length work.now }
    ensures { Decides (RowsAllowed work.now allowed.now rows.now (length rows.now)) result }
{
    for (i, r) in rows.iter().enumerate() {
        let set = allowed[i];
        if work[*r as usize] | set != set {
            return false;
        }
    }
    true
}

// Whether the levels of each row's diagram are of variables that the row is allowed. Without nodes every diagram is a leaf.
pub fn free_only(nodes: Nodes, work: &mut [u32], k: u32, allowed: &[u32; 64], rows: &[u32]) -> bool
    requires right { Right nodes.slice.now nodes.count (4 * k) }
    requires rows { Rows nodes.slice.now nodes.count (4 * k) rows.now (length rows.now) }
    requires count_in_bounds { (nodes.count + 2 ≤ length work.old) × (0 < k) × (k ≤ 10) }
    ensures decides { Decides (FreeOnly nodes.entry.slice.now nodes.entry.count k allowed.now rows.now (length rows.now)) result }
    ensures rest { Rest (3 * nodes.entry.count) work.old work.new }
{
    if nodes.count == 0 {
        return true;
    }
    mark(nodes, work, k);
    rows_allowed(work, allowed, rows)
}
