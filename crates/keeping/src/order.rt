// The pass that finds whether the kept nodes stand in canonical order: each node is gone into once. Assumes nothing.
ghost use Rattle.std.specs.Prelude.{◌≡◌, ◌+◌, ◌<◌, ◌≤◌, length};
ghost use Rattle.nodes.specs.Nodes.{Decides};
ghost use Rattle.keeping.specs.Checks.{Inside, Follows, InRowOrder};

use nodes::table::Nodes;

// Walks the diagram of the node r, which is not among the n nodes passed so far: low side first, then high, each unless it was
// passed, then the node itself, which must stand at the place of the count. Gives the count; None where a node stands out of order.
fn in_order(nodes: &Nodes<'_>, n: u32, r: u32) -> Option<u32>
    requires n_le_count { (n ≤ nodes.now.count) × (n + 2 ≤ r) × (r < nodes.now.count + 2) }
    ensures { Follows nodes.now.slice.now nodes.now.count n r result }
{
    let node = nodes.read(r);
    let (low, high) = (node.low, node.high);
    let mut count = n;
    if count + 2 <= low {
        count = in_order(nodes, count, low)?;
    }
    if count + 2 <= high {
        count = in_order(nodes, count, high)?;
    }
    if count + 2 == r {
        Some(count + 1)
    } else {
        None
    }
}

// Whether the kept nodes are the diagrams of the rows' references, in canonical order.
pub fn rows_in_order(nodes: Nodes, rows: &[u32]) -> bool
    requires { Inside rows.now (length rows.now) nodes.count }
    ensures { Decides (InRowOrder nodes.entry.slice.now nodes.entry.count rows.now (length rows.now)) result }
{
    let mut n = 0;
    for r in rows {
        if n + 2 <= *r {
            let Some(count) = in_order(&nodes, n, *r) else {
                return false;
            };
            n = count;
        }
    }
    n == nodes.count
}
