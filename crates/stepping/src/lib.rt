// One event's work on the diagrams: the check of what is kept, the rows one after the other, the sweep that makes the nodes the
// canonical table of the new diagrams, and their sizes. `step` works an event, and `well_formed` only checks the diagrams. Neither
// assumes anything of the diagrams, the references, the sizes or the slices.
#![tactic(auto)]

mod atoms;
mod rows;

ghost use Rattle.std.specs.Prelude.{◌≡◌, ◌≤◌, IfOk, length};
ghost use Rattle.meaning.specs.Rows.{count_of_rows, right, check_rows};
ghost use Rattle.nodes.specs.Nodes.{Decides};
ghost use Rattle.keeping.specs.Checks.{CheckLeaves};
ghost use Rattle.diagram.specs.Steps.{kept_right, step_outcome, formed_outcome, Leaves, Tells};
ghost use Rattle.diagram.specs.Counts.{Visited};
ghost use Rattle.diagram.specs.Works.{Fits};
ghost use Rattle.instructions.specs.Planned.{planned};
ghost use Rattle.stepping.specs.Answers.{told_of};

use crate::rows::worked;
use diagram::{Done, Refused, Unformed};
use keeping::check;
use making::Number;
use meaning::Event;
use nodes::table::Nodes;
use sizes::sizes_right;

// What a step that is done gives back: the count of kept nodes and the room, and the visits of all complements and of the sweep.
#[derive(Clone, Copy)]
pub struct Stepped {
    pub done: Done,
    pub complements: u32,
    pub swept: u32,
}

// One event at a rule that is right: the rule's rows, what happens, and the numbers of the facts' values.
#[derive(Clone, Copy)]
struct Moment<'a> {
    rows: &'a [u32],
    event: &'a Event,
    given: &'a [Option<Number>; 96],
    ghost right: { (check_rows rows.now ≡ right) × (event.now.count ≤ 8) × (length given.now ≡ 96) × (length event.now.facts ≡ 8) },
}

// Whether the numbers and lengths are ones that a step can work with.
fn fit(k: u32, count: u32, nodes: usize, work: usize) -> bool
    ensures { Decides (Fits k count nodes work) result }
{
    let c = nodes / 3;
    1 <= k
        && k <= 10
        && 1 <= count
        && count <= 64
        && nodes == 3 * c
        && 1 <= c
        && c <= 4096
        && 16 * c + 1024 <= work
}

// Whether the diagrams are well kept and the sizes theirs. It leaves the work slice as the check does: the sizes are found in the
// check's marks, which are used up by then.
fn kept_right(
    k: u32,
    count: u32,
    allowed: &[u32; 64],
    refs: &[u32; 64],
    sizes: &[u32; 64],
    kept: u32,
    nodes: &[u32],
    work: &mut [u32],
) -> bool
    requires { Fits k count (length nodes.now) (length work.old) × (length refs.now ≡ 64) × (length sizes.now ≡ 64) }
    ensures value { result ≡ kept_right k count allowed.now refs.now sizes.now kept nodes.now }
    ensures check_leaves { CheckLeaves nodes.now kept work.old work.new result }
{
    check(k, count, allowed, refs, kept, nodes, work)
        && sizes_right(
            Nodes {
                slice: nodes,
                count: kept,
            },
            refs,
            count,
            work,
            sizes,
        )
}

// Works one event: checks the diagrams and their sizes, works each row, and makes the nodes the canonical table of the new diagrams,
// to which the references then lead, and whose sizes the sizes are. Where it is refused, nodes, references and sizes stay as they
// are. The caller has checked the rule and the event (refusals 2 and 5).
pub fn step(
    k: u32,
    rows: &[u32],
    event: Event,
    given: &[Option<Number>; 96],
    free: &[u32; 64],
    refs: &mut [u32; 64],
    sizes: &mut [u32; 64],
    kept: u32,
    nodes: &mut [u32],
    work: &mut [u32],
) -> Result<Stepped, Refused>
    requires { (check_rows rows.now ≡ right) × (event.count ≤ 8) × (length given.now ≡ 96) × (length refs.old ≡ 64) × (length sizes.old ≡ 64) }
    ensures leaves { Leaves (step_outcome k (count_of_rows rows.now) (planned rows.now event given.now) free.now refs.old sizes.old kept nodes.old work.old) (told_of result) refs.new sizes.new nodes.new work.new }
    ensures visits { IfOk result (λ s. Visited k (count_of_rows rows.now) (planned rows.now event given.now) refs.old kept nodes.old s.done.kept s.complements s.swept) }
{
    let count = (rows.len() / 9) as u32;
    if !fit(k, count, nodes.len(), work.len()) {
        return Err(Refused::Unfit);
    }
    if !kept_right(k, count, free, refs, sizes, kept, nodes, work) {
        let c = nodes.len() / 3;
        work[0..16 * c + 1024].fill(0);
        return Err(Refused::Bad);
    }
    let moment = Moment {
        rows,
        event: &event,
        given,
    };
    worked(k, moment, refs, sizes, kept, nodes, work)
}

// Checks the diagrams and their sizes, and changes none.
pub fn well_formed(
    k: u32,
    count: u32,
    allowed: &[u32; 64],
    refs: &[u32; 64],
    sizes: &[u32; 64],
    kept: u32,
    nodes: &[u32],
    work: &mut [u32],
) -> Result<(), Unformed>
    requires { (length refs.now ≡ 64) × (length sizes.now ≡ 64) }
    ensures { Tells (formed_outcome k count allowed.now refs.now sizes.now kept nodes.now work.old) result work.new }
{
    if !fit(k, count, nodes.len(), work.len()) {
        return Err(Unformed::Unfit);
    }
    let good = kept_right(k, count, allowed, refs, sizes, kept, nodes, work);
    let c = nodes.len() / 3;
    work[0..16 * c + 1024].fill(0);
    if good { Ok(()) } else { Err(Unformed::Bad) }
}
