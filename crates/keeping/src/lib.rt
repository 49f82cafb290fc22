// Whether a state's diagrams are well kept: the clauses of refusal 4 that speak of nodes and references. Each pass is linear
// in the kept nodes, the search for equal nodes but for collisions. Assumes nothing.
#![tactic(auto)]

mod each; // references and nodes by themselves
mod order; // canonical order
mod free; // the rows' variables

ghost use Rattle.std.specs.Prelude.{◌≡◌, ◌*◌, ◌/◌, ◌≤◌, length};
ghost use Rattle.trees.specs.Kept.{well_kept};
ghost use Rattle.keeping.specs.Checks.{free_by, Sized, CheckLeaves};

use crate::each::{all_differ, all_right, all_zero, inside};
use crate::free::free_only;
use crate::order::rows_in_order;
use nodes::table::Nodes;

// Whether a state's diagrams are well kept, pass after pass, for a rule of `count` rows of which row i may ask the variables of
// allowed[i]. With c nodes in the slice, the passes use the first 15 * c numbers of `work` and leave them as they fall. Where
// all is well kept, the chains of the kept nodes are left there.
pub fn check(
    k: u32,
    count: u32,
    allowed: &[u32; 64],
    refs: &[u32; 64],
    kept: u32,
    nodes: &[u32],
    work: &mut [u32],
) -> bool
    requires le_k { (1 ≤ k) × (k ≤ 10) × (count ≤ 64) × (length refs.now ≡ 64) }
    requires sized { Sized nodes.now work.old }
    ensures value { result ≡ well_kept (free_by k allowed.now) (length nodes.now / 3) count refs.now kept nodes.now }
    ensures check_leaves { CheckLeaves nodes.now kept work.old work.new result }
{
    let m = kept as usize;
    if nodes.len() / 3 < m {
        return false;
    }
    let (rows, rest) = refs.split_at(count as usize);
    if !inside(rows, kept) {
        return false;
    }
    if !all_zero(rest) {
        return false;
    }
    let (_, behind) = nodes.split_at(3 * m);
    if !all_zero(behind) {
        return false;
    }
    if !all_right(nodes, kept, 4 * k) {
        return false;
    }
    if !all_differ(nodes, kept, work) {
        return false;
    }
    let table = Nodes {
        slice: nodes,
        count: kept,
    };
    if !rows_in_order(table, rows) {
        return false;
    }
    free_only(table, work, k, allowed, rows)
}
