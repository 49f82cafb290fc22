// The work of one row that is no atom: the walk that its instruction asks for. Assumes that the first n nodes are a table, and that the work
// slice holds its chains, its map of complements and its memory.
ghost use Rattle.std.specs.Prelude.{◌≡◌, ◌*◌, ◌≤◌, length, get_or};
ghost use Rattle.trees.specs.Bits.{drops};
ghost use Rattle.trees.specs.Tree.{eval};
ghost use Rattle.trees.specs.Table.{at, trees_of};
ghost use Rattle.making.specs.Loans.{SameLoans, made};
ghost use Rattle.walks.specs.Complements.{counted};
ghost use Rattle.walks.specs.Walks.{Within};
ghost use Rattle.walks.specs.Desks.{Desk};
ghost use Rattle.diagram.specs.Steps.{drop_stages, does};
ghost use Rattle.diagram.specs.Works.{Leads, Worked, Base, quietly, RowDone};

use crate::Instruction;
use making::lent::{Layout, Lent};
use walks::parting::Three;
use walks::{Seen, drop_walk, not_walk, since_walk};

// The reference of row a: no past the rows.
fn pick(refs: &[u32; 64], a: u32) -> u32
    requires { length refs.now ≡ 64 }
    ensures { result ≡ get_or refs.now a 0 }
{
    refs.get(a as usize).copied().unwrap_or(0)
}

// The level of bit 0 of the variable v; past all levels for a v past the four variables.
fn first_level(k: u32, v: u32) -> u32
    requires { k ≤ 10 }
    ensures { Base k v result }
{
    v.min(4) * k
}

// The bits of the variable v removed one at a time, from bit k - 1 down to bit 0.
fn drops_row(lent: &mut Lent<'_>, layout: Layout, k: u32, v: u32, p: u32) -> Option<u32>
    requires k_bound { (k ≤ 10) × Desk lent.old.nodes.now lent.old.count (4 * k) lent.old.work.now layout.c layout.slots }
    requires within { Within lent.old.nodes.now lent.old.count (4 * k) (4 * k) p }
    ensures same { SameLoans lent.old lent.new }
    ensures worked { Worked (4 * k) lent.old.nodes.now lent.new.nodes.now lent.old.count (drop_stages (v * k) k (eval (at (trees_of lent.old.nodes.now lent.old.count) p))) (drops (v * k) k (eval (at (trees_of lent.old.nodes.now lent.old.count) p))) lent.old.work.now lent.new.work.now layout.c layout.slots (made lent.new.count result) }
{
    let base = first_level(k, v);
    let mut r = p;
    for b in (0..k).rev() {
        r = drop_walk(lent, layout, 4 * k, 4 * k, base + b, r)?;
    }
    Some(r)
}

// The answer of a walk that counts no visits.
pub fn unvisited(reference: Option<u32>) -> Option<Seen>
    ensures { result ≡ quietly reference }
{
    let reference = reference?;
    Some(Seen {
        reference,
        visits: 0,
    })
}

// The new diagram of row i, whose instruction is x, and the visits where it is a complement; `olds` are the references before
// the event, and `news` those of the rows worked so far.
pub fn row(
    lent: &mut Lent<'_>,
    layout: Layout,
    k: u32,
    i: u32,
    x: Instruction,
    olds: &[u32; 64],
    news: &[u32; 64],
) -> Option<Seen>
    requires k_bound { (k ≤ 10) × Desk lent.old.nodes.now lent.old.count (4 * k) lent.old.work.now layout.c layout.slots }
    requires leads { Leads lent.old.nodes.now lent.old.count (4 * k) olds.now × Leads lent.old.nodes.now lent.old.count (4 * k) news.now }
    ensures same { SameLoans lent.old lent.new }
    ensures done { RowDone k lent.old.nodes.now lent.new.nodes.now lent.old.count olds.now news.now i (does x) lent.old.work.now lent.new.work.now layout.c layout.slots (counted lent.new.count result) }
{
    match x {
        Instruction::Yes => unvisited(Some(1)),
        Instruction::And(a, b) => {
            let l = pick(news, a);
            let o = pick(news, b);
            unvisited(since_walk(lent, layout, 4 * k, 4 * k, Three { l, r: 0, o }))
        }
        Instruction::Not(a) => {
            let p = pick(news, a);
            not_walk(lent, layout, 4 * k, 4 * k, p)
        }
        Instruction::Since(a, b) => {
            let l = pick(news, a);
            let r = pick(news, b);
            let o = pick(olds, i);
            unvisited(since_walk(lent, layout, 4 * k, 4 * k, Three { l, r, o }))
        }
        Instruction::Old(a) => {
            let p = pick(olds, a);
            unvisited(Some(p))
        }
        Instruction::Drop(v, a) => {
            let p = pick(news, a);
            unvisited(drops_row(lent, layout, k, v, p))
        }
    }
}
