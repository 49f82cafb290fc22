// The rows' work, one after the other, and what follows it: the sweep, or the refusal. Regions of the work slice, with c nodes
// in the node slice: the sweep's table before 3 * c, its notes before 4 * c, the map of complements before 5 * c, the memory
// of results before 13 * c, the heads of the chains of nodes before 14 * c, their links before 15 * c. The check uses the
// first c for its marks, and leaves the chains. Sizes are found in the first c too, after the check and after the sweep.
ghost use Rattle.std.specs.Prelude.{◌≡◌, ℕ, ◌*◌, ◌/◌, ◌≤◌, IfOk, leb, length, get_or, replicate};
ghost use Rattle.trees.specs.Kept.{diagrams};
ghost use Rattle.meaning.specs.Rows.{count_of_rows, right, check_rows};
ghost use Rattle.rule.specs.Decoded.{row_of};
ghost use Rattle.nodes.specs.Chains.{Chained};
ghost use Rattle.making.specs.Loans.{SameLoans};
ghost use Rattle.walks.specs.Desks.{Desk};
ghost use Rattle.walks.specs.Complements.{counted};
ghost use Rattle.diagram.specs.Steps.{work_table, work_outcome, Leaves};
ghost use Rattle.diagram.specs.Counts.{Visited};
ghost use Rattle.diagram.specs.Works.{Fits, Leads, RowDone, Fresh, Ready};
ghost use Rattle.instructions.specs.Planned.{asked, planned};
ghost use Rattle.stepping.specs.Answers.{told_of, AllWorked};

use crate::atoms::atom;
use crate::{Moment, Stepped};
use diagram::row::{row, unvisited};
use diagram::{Done, Refused};
use making::lent::{Layout, Lent};
use nodes::table::Nodes;
use nodes::zero;
use rule::Row;
use sweeping::renew;
use walks::Seen;

// The new diagram of row i, whose decoded form is `read`, and the visits where it is a complement.
fn one_row(
    lent: &mut Lent<'_>,
    layout: Layout,
    k: u32,
    i: u32,
    read: Row,
    moment: Moment<'_>,
    olds: &[u32; 64],
    news: &[u32; 64],
) -> Option<Seen>
    requires k_bound { (k ≤ 10) × Desk lent.old.nodes.now lent.old.count (4 * k) lent.old.work.now layout.c layout.slots }
    requires leads { Leads lent.old.nodes.now lent.old.count (4 * k) olds.now × Leads lent.old.nodes.now lent.old.count (4 * k) news.now }
    ensures same { SameLoans lent.old lent.new }
    ensures done { RowDone k lent.old.nodes.now lent.new.nodes.now lent.old.count olds.now news.now i (asked (row_of read) moment.entry.event.now moment.entry.given.now) lent.old.work.now lent.new.work.now layout.c layout.slots (counted lent.new.count result) }
{
    if instructions::is_atom(read) {
        return unvisited(atom(lent, layout, k, read, moment));
    }
    let x = instructions::instruction(read);
    row(lent, layout, k, i, x, olds, news)
}

// Works the rows in order, each as it is read, as long as there is room: `olds` are the references before the event, and `news` become those
// after it. It gives back the visits of all complements.
fn work_rows(
    lent: &mut Lent<'_>,
    layout: Layout,
    k: u32,
    moment: Moment<'_>,
    olds: &[u32; 64],
    news: &mut [u32; 64],
) -> Option<u32>
    requires k_bound { (k ≤ 10) × Desk lent.old.nodes.now lent.old.count (4 * k) lent.old.work.now layout.c layout.slots }
    requires leads { Leads lent.old.nodes.now lent.old.count (4 * k) olds.now × (news.old ≡ replicate 64 0) }
    requires by_index { ((a : ℕ) → count_of_rows moment.rows.now ≤ a → get_or olds.now a 0 ≡ 0) × Fresh lent.old.nodes.now lent.old.count lent.old.work.now layout.c }
    ensures same { SameLoans lent.old lent.new }
    ensures all { AllWorked k (planned moment.entry.rows.now moment.entry.event.now moment.entry.given.now) (diagrams lent.old.nodes.now lent.old.count olds.now (count_of_rows moment.entry.rows.now)) lent.old.nodes.now lent.old.count lent.new.nodes.now lent.new.work.now layout.c layout.slots olds.now (count_of_rows moment.entry.rows.now) lent.new.count result news.new }
{
    let mut visits = 0;
    for i in 0..moment.rows.len() / 9 {
        let read = rule::row_at(moment.rows, i);
        let done = one_row(lent, layout, k, i as u32, read, moment, olds, news)?;
        news[i] = done.reference;
        visits += done.visits;
    }
    Some(visits)
}

// How many slots the memory of results gets: some for each kept node, and no more than there is place for.
fn slots_for(c: usize, kept: u32) -> usize
    requires { (1 ≤ c) × (c ≤ 4096) × (kept ≤ c) }
    ensures { (1 ≤ result) × (result ≤ 2 * c) }
{
    let wanted = 2 * (kept as usize) + 64;
    wanted.min(2 * c)
}

// Works an event on diagrams that are well kept.
pub fn worked(
    k: u32,
    moment: Moment<'_>,
    refs: &mut [u32; 64],
    sizes: &mut [u32; 64],
    kept: u32,
    nodes: &mut [u32],
    work: &mut [u32],
) -> Result<Stepped, Refused>
    requires sizes_long { length sizes.old ≡ 64 }
    requires fits { Fits k (count_of_rows moment.rows.now) (length nodes.old) (length work.old) }
    requires ready { Ready k (count_of_rows moment.rows.now) refs.old kept nodes.old × Chained nodes.old kept work.old }
    ensures leaves { Leaves (work_outcome (leb (length (work_table k (count_of_rows moment.entry.rows.now) (planned moment.entry.rows.now moment.entry.event.now moment.entry.given.now) refs.old kept nodes.old)) (length nodes.old / 3)) k (count_of_rows moment.entry.rows.now) (planned moment.entry.rows.now moment.entry.event.now moment.entry.given.now) refs.old sizes.old kept nodes.old work.old) (told_of result) refs.new sizes.new nodes.new work.new }
    ensures visits { IfOk result (λ s. Visited k (count_of_rows moment.entry.rows.now) (planned moment.entry.rows.now moment.entry.event.now moment.entry.given.now) refs.old kept nodes.old s.done.kept s.complements s.swept) }
{
    let c = nodes.len() / 3;
    let slots = slots_for(c, kept);
    work[4 * c..5 * c + 4 * slots].fill(0);
    let mut news = [0; 64];
    let mut lent = Lent {
        nodes: &mut *nodes,
        work: &mut work[0..15 * c],
        count: kept,
    };
    let layout = Layout { c, slots };
    let Some(visits) = work_rows(&mut lent, layout, k, moment, refs, &mut news) else {
        let end = nodes.len();
        zero(nodes, 3 * (kept as usize), end);
        work[0..16 * c + 1024].fill(0);
        return Err(Refused::Full);
    };
    let room = lent.count;
    let count = (moment.rows.len() / 9) as u32;
    let y = renew(nodes, room, work, 4 * k, &news, count, refs);
    let table = Nodes {
        slice: nodes,
        count: y.kept,
    };
    sizes::sizes(table, refs, count, work, sizes);
    work[0..16 * c + 1024].fill(0);
    Ok(Stepped {
        done: Done { kept: y.kept, room },
        complements: visits,
        swept: y.visits,
    })
}
