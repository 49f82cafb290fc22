// One walk over the levels of bindings, for both tasks: the new age diagram from the left side, the right side and the old ages together, and
// the row's diagram from its ages. It goes down by calling itself: easy cases, a look at what is remembered, the low side, the
// high side, and then the node, made and written down; under the bindings' levels it ends with one age, or a leaf. So it leaves the
// table with the nodes of its result, in their order, and no others, or says that there is no room for them.
// The memory of results is the walks' own, cleared before and after: while a walk lasts it stands for this task alone.
ghost use Rattle.std.specs.Prelude.{◌+◌, ◌*◌, ◌<◌, ◌≤◌, length};
ghost use Rattle.trees.specs.Table.{at, trees_of};
ghost use Rattle.making.specs.Tables.{Added, Shelf, Shelved};
ghost use Rattle.making.specs.Loans.{SameLoans, made};
ghost use Rattle.walks.specs.Walks.{Within};
ghost use Rattle.walks.specs.Desks.{Desk, Remembered};
ghost use Rattle.ages.specs.Ages.{top_age, age_t, ripe_t};
ghost use Rattle.aging.specs.Dates.{limit_of, Short, Under, Dated, Plain, Ageing};
ghost use Rattle.aging.specs.Tasks.{bound_of, does, Eased};
ghost use Rattle.aging.specs.Slates.{applied, Slate, Slated};

use crate::age::{is_ripe, make_age, next_age, old_age};
use crate::{Bound, Task};
use making::lent::{Layout, Lent};
use making::memory::{Key, spot};
use nodes::{Node, zero};
use walks::parting::{Three, part};

// What the references alone tell: where the left side is no, or within d where the right side is yes, the old ages do not matter.
fn ease(task: Task, x: Three) -> Three
    ensures { Eased task x.l x.r x.o result.l result.r result.o }
{
    match task {
        Task::Ages(_, _) if x.l == 0 => Three { l: 0, o: 0, ..x },
        Task::Ages(Bound::Within(_), _) if x.r == 1 => Three { l: 0, o: 0, ..x },
        _ => x,
    }
}

// The task under the bindings' levels: one age, or a leaf.
fn ended(lent: &mut Lent<'_>, c: usize, k: u32, task: Task, x: Three) -> Option<u32>
    requires shelf { Shelf lent.old.nodes.now lent.old.count lent.old.work.now c }
    requires k_bound { (k ≤ 10) × Short (bound_of task) × (x.l < 2) × (x.r < 2) × (x.o < lent.old.count + 2) × Under k (at (trees_of lent.old.nodes.now lent.old.count) x.o) }
    ensures same { SameLoans lent.old lent.new }
    ensures added { Added (λ ns j. Shelved lent.old.work.now ns j lent.new.work.now c) lent.old.nodes.now lent.new.nodes.now lent.old.count (applied (does k task) (trees_of lent.old.nodes.now lent.old.count) x.l x.r x.o) (made lent.new.count result) }
{
    let old = old_age(lent, k, x.o);
    match task {
        Task::Ages(b, t) => {
            let age = next_age(b, t, x.l == 1, x.r == 1, old);
            make_age(lent, c, k, age)
        }
        Task::Ripe(b) => Some(u32::from(is_ripe(b, old))),
    }
}

// The task on three diagrams, which ask at most the last `left` of the bindings' levels, and the old one the ages' levels too.
fn walk(lent: &mut Lent<'_>, layout: Layout, k: u32, task: Task, left: u32, x: Three) -> Option<u32>
    requires slate { Slate (does k task) lent.old.nodes.now lent.old.count lent.old.work.now layout.c layout.slots }
    requires k_bound { (k ≤ 10) × Short (bound_of task) × (left ≤ 4 * k) × Within lent.old.nodes.now lent.old.count (4 * k) left x.l × Within lent.old.nodes.now lent.old.count (4 * k) left x.r × Dated lent.old.nodes.now lent.old.count k left (top_age (limit_of (bound_of task))) x.o }
    ensures same { SameLoans lent.old lent.new }
    ensures added { Added (λ ns j. Slated lent.old.work.now (does k task) ns j lent.new.work.now layout.c layout.slots) lent.old.nodes.now lent.new.nodes.now lent.old.count (applied (does k task) (trees_of lent.old.nodes.now lent.old.count) x.l x.r x.o) (made lent.new.count result) }
{
    let s = ease(task, x);
    let key = Key {
        first: s.l,
        second: s.r,
        third: s.o,
    };
    let i = spot(layout, key);
    if let Some(reference) = lent.recall(i, key) {
        return Some(reference);
    }
    let fork = part(lent, s);
    if 4 * k <= fork.level {
        return ended(lent, layout.c, k, task, s);
    }
    let low = walk(lent, layout, k, task, left - 1, fork.low)?;
    let high = walk(lent, layout, k, task, left - 1, fork.high)?;
    let node = Node {
        level: fork.level,
        low,
        high,
    };
    lent.keep(layout.c, i, key, node)
}

// The task on three diagrams, with the memory cleared before, so that it stands for this task alone, and after, so that it stands for the other
// walks' results again.
fn run(lent: &mut Lent<'_>, layout: Layout, k: u32, task: Task, x: Three) -> Option<u32>
    requires desk { Desk lent.old.nodes.now lent.old.count (4 * k + 11) lent.old.work.now layout.c layout.slots }
    requires k_bound { (k ≤ 10) × Short (bound_of task) × Plain lent.old.nodes.now lent.old.count k x.l × Plain lent.old.nodes.now lent.old.count k x.r × Ageing lent.old.nodes.now lent.old.count k (top_age (limit_of (bound_of task))) x.o }
    ensures same { SameLoans lent.old lent.new }
    ensures added { Added (λ ns j. Remembered lent.old.work.now ns j (4 * k + 11) lent.new.work.now layout.c layout.slots) lent.old.nodes.now lent.new.nodes.now lent.old.count (applied (does k task) (trees_of lent.old.nodes.now lent.old.count) x.l x.r x.o) (made lent.new.count result) }
{
    let from = 5 * layout.c;
    let work = &mut *lent.work;
    zero(work, from, 5 * layout.c + 4 * layout.slots);
    let reference = walk(lent, layout, k, task, 4 * k, x);
    let work = &mut *lent.work;
    zero(work, from, from + 4 * layout.slots);
    reference
}

// The age diagram after a step of t, from the left side, the right side and the old ages together.
pub fn age_walk(
    lent: &mut Lent<'_>,
    layout: Layout,
    k: u32,
    b: Bound,
    t: u32,
    x: Three,
) -> Option<u32>
    requires desk { Desk lent.old.nodes.now lent.old.count (4 * k + 11) lent.old.work.now layout.c layout.slots }
    requires k_bound { (k ≤ 10) × Short b × Plain lent.old.nodes.now lent.old.count k x.l × Plain lent.old.nodes.now lent.old.count k x.r × Ageing lent.old.nodes.now lent.old.count k (top_age (limit_of b)) x.o }
    ensures same { SameLoans lent.old lent.new }
    ensures added { Added (λ ns j. Remembered lent.old.work.now ns j (4 * k + 11) lent.new.work.now layout.c layout.slots) lent.old.nodes.now lent.new.nodes.now lent.old.count (age_t k (limit_of b) t (at (trees_of lent.old.nodes.now lent.old.count) x.l) (at (trees_of lent.old.nodes.now lent.old.count) x.r) (at (trees_of lent.old.nodes.now lent.old.count) x.o)) (made lent.new.count result) }
{
    run(lent, layout, k, Task::Ages(b, t), x)
}

// The row's diagram from its ages.
pub fn ripe_walk(lent: &mut Lent<'_>, layout: Layout, k: u32, b: Bound, o: u32) -> Option<u32>
    requires desk { Desk lent.old.nodes.now lent.old.count (4 * k + 11) lent.old.work.now layout.c layout.slots }
    requires k_bound { (k ≤ 10) × Short b × Ageing lent.old.nodes.now lent.old.count k (top_age (limit_of b)) o }
    ensures same { SameLoans lent.old lent.new }
    ensures added { Added (λ ns j. Remembered lent.old.work.now ns j (4 * k + 11) lent.new.work.now layout.c layout.slots) lent.old.nodes.now lent.new.nodes.now lent.old.count (ripe_t k (limit_of b) (at (trees_of lent.old.nodes.now lent.old.count) o)) (made lent.new.count result) }
{
    run(lent, layout, k, Task::Ripe(b), Three { l: 0, r: 0, o })
}
