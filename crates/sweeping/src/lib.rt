// The canonical sweep: the diagrams of some references, copied in canonical order into a table of their own, with the visits
// that it takes. The work slice holds that table in its first 3 * c numbers, and behind it, for each place of the nodes, 0 or
// one more than the reference that its diagram has in the new table. Assumes nothing.
#![tactic(auto)]

ghost use Rattle.std.specs.Prelude.{◌≡◌, ℕ, ◌+◌, ◌*◌, ◌-◌, ◌/◌, ◌<◌, ◌≤◌, ◌++◌, length, get_or, set, take, replicate};
ghost use Rattle.nodes.specs.Nodes.{Table, Rows};
ghost use Rattle.sweeping.specs.Sweeps.{Noted, Ordered, Known, Emitted, Awaits, Copied, Renewal};

use nodes::{Node, read, zero};

// What the sweep of a diagram answers: the count of nodes of the new table, the diagram's reference there, and how many
// visits the sweep took: one for each reference that it followed.
#[derive(Clone, Copy)]
struct Swept {
    count: u32,
    reference: u32,
    visits: u32,
}

// Writes a node at place n of the new table, and at j the note that it stands there.
fn emit(work: &mut [u32], n: u32, j: usize, x: Node)
    requires { (n < 4096) × (3 * n + 2 < length work.old) × (j < length work.old) }
    ensures { work.new ≡ set (set (set (set work.old (3 * n) x.level) (3 * n + 1) x.low) (3 * n + 2) x.high) j (n + 3) }
{
    let i = 3 * (n as usize);
    work[i] = x.level;
    work[i + 1] = x.low;
    work[i + 2] = x.high;
    work[j] = n + 3;
}

// A visit of r that goes no further: r is a leaf, or has a note. None where r is to be taken apart.
fn known(nodes: &[u32], m: u32, work: &[u32], n: u32, r: u32) -> Option<Swept>
    requires { Noted nodes.now m work.now (length nodes.now / 3) n × (r < m + 2) }
    ensures { Known nodes.now m work.now (length nodes.now / 3) n r result }
{
    if r < 2 {
        return Some(Swept {
            count: n,
            reference: r,
            visits: 1,
        });
    }
    let note = work[nodes.len() + (r as usize - 2)];
    if note == 0 {
        return None;
    }
    Some(Swept {
        count: n,
        reference: note - 1,
        visits: 1,
    })
}

// Adds the node r, which has no note, and its sides: low side first, then high, then the node itself. It is in the new table
// nowhere, so it is written without a search.
#[cycle(sweep)]
fn apart(nodes: &[u32], m: u32, work: &mut [u32], n: u32, left: u32, r: u32) -> Swept
    requires noted { Noted nodes.now m work.old (length nodes.now / 3) n }
    requires ordered { Ordered nodes.now m left r }
    requires le_r { (2 ≤ r) × (get_or work.old (3 * (length nodes.now / 3) + (r - 2)) 0 ≡ 0) }
    ensures { Emitted nodes.now m r work.old work.new (length nodes.now / 3) n result.count result.reference result.visits }
{
    let j = nodes.len() + (r as usize - 2);
    let x = read(nodes, m, r);
    let a = sweep(nodes, m, work, n, left - 1, x.low);
    let b = sweep(nodes, m, work, a.count, left - 1, x.high);
    let y = Node {
        low: a.reference,
        high: b.reference,
        ..x
    };
    emit(work, b.count, j, y);
    Swept {
        count: b.count + 1,
        reference: b.count + 2,
        visits: a.visits + b.visits + 1,
    }
}

// The sweep of the diagram of r, over the last `left` levels or fewer: a visit, and where that goes no further nothing else.
#[inline(always)]
#[cycle(sweep)]
fn sweep(nodes: &[u32], m: u32, work: &mut [u32], n: u32, left: u32, r: u32) -> Swept
    requires noted { Noted nodes.now m work.old (length nodes.now / 3) n }
    requires ordered { Ordered nodes.now m left r }
    ensures { Emitted nodes.now m r work.old work.new (length nodes.now / 3) n result.count result.reference result.visits }
{
    match known(nodes, m, work, n, r) {
        Some(seen) => seen,
        None => apart(nodes, m, work, n, left, r),
    }
}

// What the sweep of all rows answers: the count of nodes of the canonical table, and all visits.
#[derive(Clone, Copy)]
pub struct Renewed {
    pub kept: u32,
    pub visits: u32,
}

// Sweeps the diagrams of the first `count` references, in order, into an empty table, and writes their references there to `out`,
// which is 0 past them. The notes of the m nodes are 0 before.
fn sweep_all(
    nodes: &[u32],
    m: u32,
    work: &mut [u32],
    levels: u32,
    refs: &[u32; 64],
    count: u32,
    out: &mut [u32; 64],
) -> Renewed
    requires table { Table nodes.now m }
    requires nodes_len { (length nodes.now ≡ 3 * (length nodes.now / 3)) × (4 * (length nodes.now / 3) ≤ length work.old) × (length refs.now ≡ 64) }
    requires awaits { Awaits count out.old }
    requires by_index { (i : ℕ) → 3 * (length nodes.now / 3) ≤ i → i < 3 * (length nodes.now / 3) + m → get_or work.old i 0 ≡ 0 }
    requires rows { Rows nodes.now m levels refs.now count }
    ensures { Copied nodes.now m levels refs.now count work.old work.new (length nodes.now / 3) result.kept out.new result.visits }
{
    let mut kept = 0;
    let mut visits = 0;
    for i in 0..count as usize {
        let s = sweep(nodes, m, work, kept, levels, refs[i]);
        out[i] = s.reference;
        kept = s.count;
        visits += s.visits;
    }
    Renewed { kept, visits }
}

// Copies the first n nodes of `work` to `nodes`, and sets the rest of `nodes` to 0.
fn copy_back(work: &[u32], nodes: &mut [u32], n: u32)
    requires { (3 * n ≤ length work.now) × (3 * n ≤ length nodes.old) }
    ensures { nodes.new ≡ take (3 * n) work.now ++ replicate (length nodes.old - 3 * n) 0 }
{
    let k = 3 * (n as usize);
    for i in 0..k {
        nodes[i] = work[i];
    }
    let end = nodes.len();
    zero(nodes, k, end);
}

// Makes the nodes the canonical table of the diagrams of the first `count` references: the rows in order, each diagram
// low side first, children before parents, each node once; `out`, which is 0 past them, becomes their references there. The work
// slice is changed before 4 * c, c being the nodes' places.
pub fn renew(
    nodes: &mut [u32],
    m: u32,
    work: &mut [u32],
    levels: u32,
    refs: &[u32; 64],
    count: u32,
    out: &mut [u32; 64],
) -> Renewed
    requires table { Table nodes.old m }
    requires nodes_len { (length nodes.old ≡ 3 * (length nodes.old / 3)) × (4 * (length nodes.old / 3) ≤ length work.old) × (length refs.now ≡ 64) }
    requires awaits { Awaits count out.old }
    requires rows { Rows nodes.old m levels refs.now count }
    ensures { Renewal nodes.old m levels refs.now count work.old nodes.new work.new result.kept out.new result.visits }
{
    let notes = nodes.len();
    work[notes..notes + m as usize].fill(0);
    let x = sweep_all(nodes, m, work, levels, refs, count, out);
    copy_back(work, nodes, x.kept);
    x
}
