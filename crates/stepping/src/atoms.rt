// An atom's new diagram: each fact in turn goes into it, where it matches.
ghost use Rattle.std.specs.Prelude.{◌≡◌, [], ◌*◌, ◌≤◌, length};
ghost use Rattle.rule.specs.Decoded.{row_of};
ghost use Rattle.walks.specs.Desks.{Desk};
ghost use Rattle.making.specs.Loans.{SameLoans, made};
ghost use Rattle.diagram.specs.Steps.{turns_say, turn_stages};
ghost use Rattle.diagram.specs.Works.{Worked};
ghost use Rattle.instructions.specs.Planned.{turns_to};

use crate::Moment;
use diagram::turns::take_turn;
use making::lent::{Layout, Lent};
use rule::Row;

// The new diagram of a row to which each fact adds what it has.
pub fn atom(
    lent: &mut Lent<'_>,
    layout: Layout,
    k: u32,
    read: Row,
    moment: Moment<'_>,
) -> Option<u32>
    requires { (k ≤ 10) × Desk lent.old.nodes.now lent.old.count (4 * k) lent.old.work.now layout.c layout.slots }
    ensures same { SameLoans lent.old lent.new }
    ensures worked { Worked (4 * k) lent.old.nodes.now lent.new.nodes.now lent.old.count (turn_stages k [] (turns_to (row_of read) moment.entry.event.now moment.entry.given.now moment.entry.event.now.count)) (turns_say k (turns_to (row_of read) moment.entry.event.now moment.entry.given.now moment.entry.event.now.count)) lent.old.work.now lent.new.work.now layout.c layout.slots (made lent.new.count result) }
{
    let mut reference = 0;
    for f in 0..moment.event.count as usize {
        let matched = numbers::matches(read, moment.event.facts[f]);
        let turn = instructions::turn(read, matched, moment.given, f);
        reference = take_turn(lent, layout, k, turn, reference)?;
    }
    Some(reference)
}
