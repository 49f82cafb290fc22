// The walks over diagrams in a table: since of three together, the complement, and the removal of a bit. Each goes down the levels
// by calling itself: easy cases, a look at what is remembered, the low side, the high side, and then the node, made and
// written down. So it leaves the table with the nodes of its result, in their order, or says that there is no room for them.
// With c nodes in the node slice, the work slice has the map of complements from 4 * c on, the memory of results, of so many
// slots, from 5 * c on, and the chains of nodes from 13 * c on and before 15 * c. Assumes that the first n nodes are a table.
#![tactic(auto)]

ghost use Rattle.std.specs.Prelude.{◌≡◌, ◌+◌, ◌<◌, ◌≤◌};
ghost use Rattle.trees.specs.Tree.{mk, not_t, since_t, drop_t};
ghost use Rattle.trees.specs.Table.{at, trees_of};
ghost use Rattle.making.specs.Tables.{Added};
ghost use Rattle.making.specs.Loans.{SameLoans, made};
ghost use Rattle.walks.specs.Walks.{Within, Eased};
ghost use Rattle.walks.specs.Desks.{Desk, Remembered};
ghost use Rattle.walks.specs.Complements.{KeptNot, Complemented, counted};

pub mod parting;

use crate::parting::{Three, part};
use making::lent::{Layout, Lent};
use making::memory::{Key, spot};
use nodes::Node;

// Since where l is yes, and o is not no: r or o.
fn settle_or(r: u32, o: u32) -> Three
    requires { 1 ≤ o }
    ensures { Eased 1 r o result.l result.r result.o }
{
    if r == 0 {
        return Three { l: 0, r: o, o: 0 };
    }
    if o == 1 {
        return Three { l: 0, r: 1, o: 0 };
    }
    if o < r {
        return Three { l: 1, r: o, o: r };
    }
    Three { l: 1, r, o }
}

// Since where l is no greater than o.
fn settle_ordered(x: Three) -> Three
    requires { x.l ≤ x.o }
    ensures { Eased x.l x.r x.o result.l result.r result.o }
{
    if x.r == 1 || x.l == 0 || x.r == x.l || x.r == x.o {
        return Three { l: 0, o: 0, ..x };
    }
    if x.l == x.o || x.l == 1 {
        return settle_or(x.r, x.o);
    }
    x
}

// What the references alone tell of since: its result, or three diagrams of the same since, in an order that several share.
fn settle(x: Three) -> Three
    ensures { Eased x.l x.r x.o result.l result.r result.o }
{
    settle_ordered(Three {
        l: x.l.min(x.o),
        o: x.l.max(x.o),
        ..x
    })
}

// Since, of three diagrams that ask at most the last `left` levels: r, or l and o. And is since with r no, or is since with l yes.
pub fn since_walk(
    lent: &mut Lent<'_>,
    layout: Layout,
    levels: u32,
    left: u32,
    x: Three,
) -> Option<u32>
    requires desk { Desk lent.old.nodes.now lent.old.count levels lent.old.work.now layout.c layout.slots }
    requires left_le_levels { (left ≤ levels) × Within lent.old.nodes.now lent.old.count levels left x.l × Within lent.old.nodes.now lent.old.count levels left x.r × Within lent.old.nodes.now lent.old.count levels left x.o }
    ensures same { SameLoans lent.old lent.new }
    ensures added { Added (λ ns j. Remembered lent.old.work.now ns j levels lent.new.work.now layout.c layout.slots) lent.old.nodes.now lent.new.nodes.now lent.old.count (since_t levels (at (trees_of lent.old.nodes.now lent.old.count) x.l) (at (trees_of lent.old.nodes.now lent.old.count) x.r) (at (trees_of lent.old.nodes.now lent.old.count) x.o)) (made lent.new.count result) }
{
    let s = settle(x);
    if s.l == 0 {
        return Some(s.r);
    }
    let key = Key {
        first: s.l,
        second: s.r,
        third: s.o,
    };
    let i = spot(layout, key);
    if let Some(reference) = lent.recall(i, key) {
        return Some(reference);
    }
    let fork = part(lent, s);
    let low = since_walk(lent, layout, levels, left - 1, fork.low)?;
    let high = since_walk(lent, layout, levels, left - 1, fork.high)?;
    let node = Node {
        level: fork.level,
        low,
        high,
    };
    lent.keep(layout.c, i, key, node)
}

// What a walk that counts answers where the slice had room for its nodes: the reference of the result, and how many visits it made. A
// visit is a node, or a leaf, looked at through one followed reference.
#[derive(Clone, Copy)]
pub struct Seen {
    pub reference: u32,
    pub visits: u32,
}

// The node x, which is the complement of p, made and written down after so many visits.
fn keep_not(
    lent: &mut Lent<'_>,
    layout: Layout,
    levels: u32,
    p: u32,
    x: Node,
    visits: u32,
) -> Option<Seen>
    requires desk { Desk lent.old.nodes.now lent.old.count levels lent.old.work.now layout.c layout.slots }
    requires le_p { (2 ≤ p) × (p < lent.old.count + 2) × (x.low < lent.old.count + 2) × (x.high < lent.old.count + 2) }
    requires p_value { not_t levels (at (trees_of lent.old.nodes.now lent.old.count) p) ≡ mk x.level (at (trees_of lent.old.nodes.now lent.old.count) x.low) (at (trees_of lent.old.nodes.now lent.old.count) x.high) }
    ensures same { SameLoans lent.old lent.new }
    ensures kept { KeptNot lent.old.nodes.now lent.new.nodes.now lent.old.count levels (mk x.level (at (trees_of lent.old.nodes.now lent.old.count) x.low) (at (trees_of lent.old.nodes.now lent.old.count) x.high)) p visits lent.old.work.now lent.new.work.now layout.c layout.slots (counted lent.new.count result) }
{
    let reference = lent.make(layout.c, x)?;
    let j = 4 * layout.c + (p as usize - 2);
    lent.work[j] = reference + 1;
    Some(Seen { reference, visits })
}

// The complement of a diagram that asks at most the last `left` levels, remembered by place. Each call is one visit.
pub fn not_walk(lent: &mut Lent<'_>, layout: Layout, levels: u32, left: u32, p: u32) -> Option<Seen>
    requires desk { Desk lent.old.nodes.now lent.old.count levels lent.old.work.now layout.c layout.slots }
    requires left_le_levels { (left ≤ levels) × Within lent.old.nodes.now lent.old.count levels left p }
    ensures same { SameLoans lent.old lent.new }
    ensures complemented { Complemented lent.old.nodes.now lent.new.nodes.now lent.old.count levels left p lent.old.work.now lent.new.work.now layout.c layout.slots (counted lent.new.count result) }
{
    if p < 2 {
        return Some(Seen {
            reference: 1 - p,
            visits: 1,
        });
    }
    let j = 4 * layout.c + (p as usize - 2);
    if let Some(reference) = lent.work[j].checked_sub(1) {
        return Some(Seen {
            reference,
            visits: 1,
        });
    }
    let mut x = lent.read(p);
    let a = not_walk(lent, layout, levels, left - 1, x.low)?;
    let b = not_walk(lent, layout, levels, left - 1, x.high)?;
    x.low = a.reference;
    x.high = b.reference;
    let visits = a.visits + b.visits + 1;
    keep_not(lent, layout, levels, p, x, visits)
}

// A diagram that asks at most the last `left` levels, without its bit at the level v: it holds for some bit there.
pub fn drop_walk(
    lent: &mut Lent<'_>,
    layout: Layout,
    levels: u32,
    left: u32,
    v: u32,
    p: u32,
) -> Option<u32>
    requires desk { Desk lent.old.nodes.now lent.old.count levels lent.old.work.now layout.c layout.slots }
    requires left_le_levels { (left ≤ levels) × Within lent.old.nodes.now lent.old.count levels left p }
    ensures same { SameLoans lent.old lent.new }
    ensures added { Added (λ ns j. Remembered lent.old.work.now ns j levels lent.new.work.now layout.c layout.slots) lent.old.nodes.now lent.new.nodes.now lent.old.count (drop_t levels v (at (trees_of lent.old.nodes.now lent.old.count) p)) (made lent.new.count result) }
{
    if p < 2 {
        return Some(p);
    }
    let mut x = lent.read(p);
    if v < x.level {
        return Some(p);
    }
    if x.level == v {
        let sides = Three {
            l: 1,
            r: x.low,
            o: x.high,
        };
        return since_walk(lent, layout, levels, left - 1, sides);
    }
    let key = Key {
        first: 0,
        second: v,
        third: p,
    };
    let i = spot(layout, key);
    if let Some(reference) = lent.recall(i, key) {
        return Some(reference);
    }
    x.low = drop_walk(lent, layout, levels, left - 1, v, x.low)?;
    x.high = drop_walk(lent, layout, levels, left - 1, v, x.high)?;
    lent.keep(layout.c, i, key, x)
}
