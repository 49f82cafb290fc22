// One age: its nodes made, read back, and the age after a step. An age stands at the 11 levels from 4 * k on, its least bit first. Assumes
// that the first n nodes are a table.
ghost use Rattle.std.specs.Prelude.{◌≡◌, ◌+◌, ◌*◌, ◌<◌, ◌≤◌, IfSome};
ghost use Rattle.trees.specs.Table.{at, trees_of};
ghost use Rattle.nodes.specs.Nodes.{Table};
ghost use Rattle.making.specs.Tables.{Added, Shelf, Shelved};
ghost use Rattle.making.specs.Loans.{SameLoans, made};
ghost use Rattle.ages.specs.Ages.{older, next_age, ripe};
ghost use Rattle.ages.proofs.AgeWalk.{chain, shown_t};
ghost use Rattle.aging.specs.Dates.{limit_of, Short, age_of, Chain, Under, ReadBits, ReadAge};

use crate::Bound;
use making::lent::Lent;
use nodes::{Node, read};

// The nodes of `count` bits of the age m, from the level `base` on: at each level one side is no.
fn make_bits(lent: &mut Lent<'_>, c: usize, base: u32, count: u32, m: u32) -> Option<u32>
    requires shelf { Shelf lent.old.nodes.now lent.old.count lent.old.work.now c }
    requires count_bound { base + count < 4294967296 }
    ensures same { SameLoans lent.old lent.new }
    ensures added { Added (λ ns j. Shelved lent.old.work.now ns j lent.new.work.now c) lent.old.nodes.now lent.new.nodes.now lent.old.count (chain base count m) (made lent.new.count result) }
{
    if count == 0 {
        return Some(1);
    }
    let d = make_bits(lent, c, base + 1, count - 1, m / 2)?;
    if m % 2 == 0 {
        let even = Node {
            level: base,
            low: d,
            high: 0,
        };
        return lent.make(c, even);
    }
    let odd = Node {
        level: base,
        low: 0,
        high: d,
    };
    lent.make(c, odd)
}

// The diagram of an age, made: no for none.
pub fn make_age(lent: &mut Lent<'_>, c: usize, k: u32, age: Option<u32>) -> Option<u32>
    requires shelf { Shelf lent.old.nodes.now lent.old.count lent.old.work.now c }
    requires k_bound { (k ≤ 10) × IfSome age (λ m. m < 2048) }
    ensures same { SameLoans lent.old lent.new }
    ensures added { Added (λ ns j. Shelved lent.old.work.now ns j lent.new.work.now c) lent.old.nodes.now lent.new.nodes.now lent.old.count (shown_t k (age_of age)) (made lent.new.count result) }
{
    match age {
        None => Some(0),
        Some(m) => make_bits(lent, c, 4 * k, 11, m),
    }
}

// The number whose `count` bits, from the level `base` on, are the diagram of p.
fn read_bits(nodes: &[u32], n: u32, base: u32, count: u32, p: u32) -> u32
    requires table { Table nodes.now n }
    requires p_bound { (p < n + 2) × (count ≤ 11) × (base + count < 4294967296) × Chain base count (at (trees_of nodes.now n) p) }
    ensures { ReadBits base count (at (trees_of nodes.now n) p) result }
{
    if count == 0 {
        return 0;
    }
    let x = read(nodes, n, p);
    if x.low == 0 {
        return 2 * read_bits(nodes, n, base + 1, count - 1, x.high) + 1;
    }
    2 * read_bits(nodes, n, base + 1, count - 1, x.low)
}

// The age that the diagram of p, which asks no binding's level, shows.
pub fn read_age(nodes: &[u32], n: u32, k: u32, p: u32) -> Option<u32>
    requires table { Table nodes.now n }
    requires p_bound { (p < n + 2) × (k ≤ 10) × Under k (at (trees_of nodes.now n) p) }
    ensures { ReadAge k (at (trees_of nodes.now n) p) result }
{
    if p == 0 {
        return None;
    }
    Some(read_bits(nodes, n, 4 * k, 11, p))
}

// The same, of the nodes that are lent.
pub fn old_age(lent: &Lent<'_>, k: u32, p: u32) -> Option<u32>
    requires table { Table lent.now.nodes.now lent.now.count }
    requires p_bound { (p < lent.now.count + 2) × (k ≤ 10) × Under k (at (trees_of lent.now.nodes.now lent.now.count) p) }
    ensures { ReadAge k (at (trees_of lent.now.nodes.now lent.now.count) p) result }
{
    read_age(lent.nodes, lent.count, k, p)
}

// An old age after a step of t: within d there is none if over d, and longer than d has d + 1 for any longer. No age is over 1,024, so a
// step of 2,048 is as long as any that matters.
fn older_age(b: Bound, t: u32, old: Option<u32>) -> Option<u32>
    requires { Short b × IfSome old (λ m. m < 2048) }
    ensures { (age_of result ≡ older (limit_of b) t (age_of old)) × IfSome result (λ m. m < 2048) }
{
    let age = old? + t.min(2048);
    match b {
        Bound::Within(d) => (age <= d).then_some(age),
        Bound::Longer(d) => Some(age.min(d + 1)),
    }
}

// The age after a step of t, where l and r are what the left and the right side say now: within d the newest that serves, longer than d
// the oldest.
pub fn next_age(b: Bound, t: u32, l: bool, r: bool, old: Option<u32>) -> Option<u32>
    requires { Short b × IfSome old (λ m. m < 2048) }
    ensures { (age_of result ≡ next_age (limit_of b) t l r (age_of old)) × IfSome result (λ m. m < 2048) }
{
    let new = r.then_some(0);
    if !l {
        return new;
    }
    let kept = older_age(b, t, old);
    match b {
        Bound::Within(_) => new.or(kept),
        Bound::Longer(_) => kept.or(new),
    }
}

// Whether the row holds of a binding of this age: within d if there is one, longer than d if it is d + 1.
pub fn is_ripe(b: Bound, age: Option<u32>) -> bool
    requires { Short b }
    ensures { result ≡ ripe (limit_of b) (age_of age) }
{
    match b {
        Bound::Within(_) => age.is_some(),
        Bound::Longer(d) => age == Some(d + 1),
    }
}
