// What one fact adds to an atom's diagram. Assumes that the first n nodes are a table, whose chains stand in the work slice.
ghost use Rattle.std.specs.Prelude.{◌+◌, ◌*◌, ◌<◌, ◌≤◌, ◌||◌};
ghost use Rattle.trees.specs.Tree.{eval, tree_of};
ghost use Rattle.trees.specs.Table.{at, trees_of};
ghost use Rattle.making.specs.Tables.{Added, Shelf, Shelved};
ghost use Rattle.making.specs.Loans.{SameLoans, made};
ghost use Rattle.diagram.specs.Steps.{turn_says};
ghost use Rattle.diagram.specs.Works.{TurnOver};

use making::Number;
use making::into::into;
use making::lent::{Layout, Lent};

// The diagram that says what p says, or what the turn says: nothing where its fact does not match, and else that the four variables show
// these numbers.
pub fn take_turn(
    lent: &mut Lent<'_>,
    layout: Layout,
    k: u32,
    turn: Option<[Option<Number>; 4]>,
    p: u32,
) -> Option<u32>
    requires shelf { Shelf lent.old.nodes.now lent.old.count lent.old.work.now layout.c }
    requires k_bound { (4 * k ≤ 64) × (p < lent.old.count + 2) × TurnOver k turn (at (trees_of lent.old.nodes.now lent.old.count) p) }
    ensures same { SameLoans lent.old lent.new }
    ensures added { Added (λ ns j. Shelved lent.old.work.now ns j lent.new.work.now layout.c) lent.old.nodes.now lent.new.nodes.now lent.old.count (tree_of (4 * k) (λ s. eval (at (trees_of lent.old.nodes.now lent.old.count) p) s || turn_says k turn s)) (made lent.new.count result) }
{
    match turn {
        None => Some(p),
        Some(places) => into(lent, layout.c, k, places, p),
    }
}
