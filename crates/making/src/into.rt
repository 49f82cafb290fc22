// A fact's numbers put into a diagram: the result also says yes where the bits of each variable that has a number show it. The
// numbers' bits are one path through the diagram: first it is followed down, and then its nodes are made from below, over what
// the diagram has on the other sides. So no node is made but the result's. Assumes that the first n nodes are a table, whose
// chains stand in the work slice.
ghost use Rattle.std.specs.Prelude.{◌+◌, ◌*◌, ◌<◌, ◌≤◌, ◌||◌};
ghost use Rattle.trees.specs.Tree.{eval, tree_of};
ghost use Rattle.trees.specs.Table.{at, trees_of};
ghost use Rattle.nodes.specs.Nodes.{Table, To};
ghost use Rattle.making.specs.Tables.{Added, Shelf, Shelved};
ghost use Rattle.making.specs.Loans.{SameLoans, made};
ghost use Rattle.making.specs.Cubes.{Over, along_bits, along_place, bits_over, place_over, cube_says};

use crate::Number;
use crate::lent::Lent;
use nodes::Node;

// Where `count` bits of m, from the level `base` on, lead from p.
fn along_bits(lent: &Lent<'_>, base: u32, count: u32, m: u32, p: u32) -> u32
    requires table { Table lent.now.nodes.now lent.now.count }
    requires p_bound { (p < lent.now.count + 2) × (base + count < 4294967296) }
    ensures { To lent.now.nodes.now lent.now.count result (along_bits base count m (at (trees_of lent.now.nodes.now lent.now.count) p)) }
{
    if p < 2 {
        return p;
    }
    if count == 0 {
        return p;
    }
    let x = lent.sides(p, base);
    if m % 2 == 0 {
        return along_bits(lent, base + 1, count - 1, m / 2, x.low);
    }
    along_bits(lent, base + 1, count - 1, m / 2, x.high)
}

// Where the k bits of a variable, from the level `base` on, lead from p.
fn along(lent: &Lent<'_>, base: u32, k: u32, place: Option<Number>, p: u32) -> u32
    requires table { Table lent.now.nodes.now lent.now.count }
    requires p_bound { (p < lent.now.count + 2) × (base + k < 4294967296) }
    ensures { To lent.now.nodes.now lent.now.count result (along_place base k place (at (trees_of lent.now.nodes.now lent.now.count) p)) }
{
    match place {
        None => p,
        Some(m) => along_bits(lent, base, k, m.0, p),
    }
}

// `count` bits of m, from the level `base` on, over the diagram `below`, and on the other side of each what p has there.
fn bits_over(
    lent: &mut Lent<'_>,
    c: usize,
    base: u32,
    count: u32,
    m: u32,
    p: u32,
    below: u32,
) -> Option<u32>
    requires shelf { Shelf lent.old.nodes.now lent.old.count lent.old.work.now c }
    requires p_bound { (p < lent.old.count + 2) × (below < lent.old.count + 2) × (base + count < 4294967296) }
    ensures same { SameLoans lent.old lent.new }
    ensures added { Added (λ ns j. Shelved lent.old.work.now ns j lent.new.work.now c) lent.old.nodes.now lent.new.nodes.now lent.old.count (bits_over base count m (at (trees_of lent.old.nodes.now lent.old.count) p) (at (trees_of lent.old.nodes.now lent.old.count) below)) (made lent.new.count result) }
{
    if count == 0 {
        return Some(below);
    }
    let x = lent.sides(p, base);
    if m % 2 == 0 {
        let d = bits_over(lent, c, base + 1, count - 1, m / 2, x.low, below)?;
        let even = Node {
            level: base,
            low: d,
            high: x.high,
        };
        return lent.make(c, even);
    }
    let d = bits_over(lent, c, base + 1, count - 1, m / 2, x.high, below)?;
    let odd = Node {
        level: base,
        low: x.low,
        high: d,
    };
    lent.make(c, odd)
}

// The k bits of a variable, from the level `base` on, over the diagram `below`, and on their other sides what p has there.
fn place_over(
    lent: &mut Lent<'_>,
    c: usize,
    base: u32,
    k: u32,
    place: Option<Number>,
    p: u32,
    below: u32,
) -> Option<u32>
    requires shelf { Shelf lent.old.nodes.now lent.old.count lent.old.work.now c }
    requires p_bound { (p < lent.old.count + 2) × (below < lent.old.count + 2) × (base + k < 4294967296) }
    ensures same { SameLoans lent.old lent.new }
    ensures added { Added (λ ns j. Shelved lent.old.work.now ns j lent.new.work.now c) lent.old.nodes.now lent.new.nodes.now lent.old.count (place_over base k place (at (trees_of lent.old.nodes.now lent.old.count) p) (at (trees_of lent.old.nodes.now lent.old.count) below)) (made lent.new.count result) }
{
    match place {
        None => Some(below),
        Some(m) => bits_over(lent, c, base, k, m.0, p, below),
    }
}

// The diagram that says what p says, or that the bits of the four variables, k for each, show their numbers.
pub fn into(
    lent: &mut Lent<'_>,
    c: usize,
    k: u32,
    places: [Option<Number>; 4],
    p: u32,
) -> Option<u32>
    requires shelf { Shelf lent.old.nodes.now lent.old.count lent.old.work.now c }
    requires k_bound { (4 * k ≤ 64) × (p < lent.old.count + 2) × Over k places (at (trees_of lent.old.nodes.now lent.old.count) p) }
    ensures same { SameLoans lent.old lent.new }
    ensures added { Added (λ ns j. Shelved lent.old.work.now ns j lent.new.work.now c) lent.old.nodes.now lent.new.nodes.now lent.old.count (tree_of (4 * k) (λ s. eval (at (trees_of lent.old.nodes.now lent.old.count) p) s || cube_says k places s)) (made lent.new.count result) }
{
    let [w, x, y, z] = places;
    let q = along(lent, 0, k, w, p);
    let r = along(lent, k, k, x, q);
    let s = along(lent, 2 * k, k, y, r);
    let d3 = place_over(lent, c, 3 * k, k, z, s, 1)?;
    let d2 = place_over(lent, c, 2 * k, k, y, r, d3)?;
    let d1 = place_over(lent, c, k, k, x, q, d2)?;
    place_over(lent, c, 0, k, w, p, d1)
}
