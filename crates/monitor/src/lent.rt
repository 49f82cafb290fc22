// The lent tables: when their lengths and the lists in them are right.
ghost use Rattle.std.specs.Prelude.{◌≡◌, ◌&&◌, [], ◌*◌, ◌≤◌, length};
ghost use Rattle.meaning.specs.Tables;
ghost use Rattle.meaning.specs.Outcome.{nodes_right, values_right};
ghost use Rattle.monitor.specs.Said.{whole};
ghost use Rattle.monitor.specs.Events.{lists_right, Beyond};

use crate::Figures;

// The node slice has 3 × C numbers, C from 1 to 4096.
fn nodes_right(nodes: &[u32]) -> bool
    ensures { result ≡ nodes_right nodes.now }
{
    nodes.len() % 3 == 0 && (1..=4096).contains(&(nodes.len() / 3))
}

// The node slice has its length, and the value slice 4 × (2^k − 1).
pub fn lengths_right(k: u32, nodes: &[u32], values: &[u32]) -> bool
    requires { k ≤ 10 }
    ensures { result ≡ (nodes_right nodes.now && values_right k values.now) }
{
    nodes_right(nodes) && values.len() == numbers::listed(k)
}

// Whether the count of rows is the rule's n, and the value lists are right: a part of refusal 4. Only the first w numbers of the work
// slice are used.
pub fn lists_right(figures: Figures, n: usize, values: &[u32], w: usize, work: &mut [u32]) -> bool
    requires k_bound { (figures.k ≤ 10) × (length values.now ≡ 4 * Tables.most figures.k) }
    requires le_w { (1024 ≤ w) × (w ≤ length work.old) }
    ensures value { result ≡ lists_right (whole figures [] []) n values.now }
    ensures beyond { Beyond w work.old work.new }
{
    figures.rows as usize == n && lists::lists_right(figures.k, figures.counts, values, w, work)
}
