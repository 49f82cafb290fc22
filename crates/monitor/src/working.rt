// What follows the check of the lists in an event: refusals 5 to 7, the rest of refusal 4, and the step itself. Each part
// leaves its outcome as the crate `meaning` defines it. What a part may assume is in specs/Events.antt.
ghost use Rattle.std.specs.Prelude.{◌≡◌, ◌-◌, ◌<◌, ◌≤◌, eqb, get_or, length};
ghost use Rattle.diagram.specs.Steps.{formed_outcome};
ghost use Rattle.monitor.specs.Calls.{machine};
ghost use Rattle.monitor.specs.Said.{whole, taken_said};
ghost use Rattle.monitor.specs.Decisions.{of_formed, said_of};
ghost use Rattle.monitor.specs.Numbered.{Grown, growth};
ghost use Rattle.monitor.specs.Events.{Listed, Asking, Ends};

use crate::refusals::Refusal;
use crate::{Figures, Said};
use diagram::Done;
use meaning::{Answer, Event};
use numbers::Asked;
use stepping::Stepped;

// The rest of refusal 4: the diagrams are not well kept, or the sizes not theirs.
fn formed(
    figures: Figures,
    refs: &[u32; 64],
    sizes: &[u32; 64],
    free: &[u32; 64],
    nodes: &[u32],
    work: &mut [u32],
) -> Result<(), Refusal>
    requires { (length refs.now ≡ 64) × (length sizes.now ≡ 64) }
    ensures value { result ≡ of_formed (formed_outcome figures.k figures.rows free.now refs.now sizes.now figures.kept nodes.now work.old).gives }
    ensures work_after { work.new ≡ (formed_outcome figures.k figures.rows free.now refs.now sizes.now figures.kept nodes.now work.old).work }
{
    let told = stepping::well_formed(
        figures.k,
        figures.rows,
        free,
        refs,
        sizes,
        figures.kept,
        nodes,
        work,
    );
    match told {
        Ok(()) => Ok(()),
        Err(_) => Err(Refusal::State),
    }
}

// By how much each count grew.
fn newly(before: [u32; 4], after: [u32; 4]) -> [u32; 4]
    requires { Grown before after }
    ensures { result ≡ growth before after }
{
    let mut numbered = [0; 4];
    for v in 0..4 {
        numbered[v] = after[v] - before[v];
    }
    numbered
}

// What is said of an event that is taken. The verdict is read off the last row's reference.
fn taken(figures: Figures, counts: [u32; 4], refs: &[u32; 64], stepped: Stepped) -> Said
    requires rows { (0 < figures.rows) × (figures.rows ≤ 64) }
    requires grown { Grown figures.counts counts }
    ensures { result ≡ taken_said figures counts stepped.done.kept stepped.done.room (eqb (get_or refs.now (figures.rows - 1) 0) 1) stepped.complements stepped.swept (growth figures.counts counts) }
{
    let Done { kept, room } = stepped.done;
    let last = (figures.rows - 1) as usize;
    let yes = refs[last] == 1;
    let numbered = newly(figures.counts, counts);
    Said {
        figures: Figures {
            kept,
            counts,
            ..figures
        },
        answer: Answer::Verdict(yes, kept, room),
        complements: stepped.complements,
        swept: stepped.swept,
        numbered,
    }
}

// Works an event that refusals 5 and 6 do not apply to.
fn work_on(
    figures: Figures,
    refs: &mut [u32; 64],
    sizes: &mut [u32; 64],
    free: &[u32; 64],
    rows: &[u32],
    nodes: &mut [u32],
    values: &mut [u32],
    work: &mut [u32],
    event: Event,
    asked: Asked,
) -> Result<Said, Refusal>
    requires { Asking rows.now free.now (machine (whole figures refs.old sizes.old) nodes.old values.old work.old) event asked }
    ensures { Ends rows.now (machine (whole figures refs.old sizes.old) nodes.old values.old work.old) event (said_of figures result) refs.new sizes.new nodes.new values.new work.new }
{
    let stepped = stepping::step(
        figures.k,
        rows,
        event,
        &asked.given,
        free,
        refs,
        sizes,
        figures.kept,
        nodes,
        work,
    )?;
    lists::write_fresh(figures.k, figures.counts, &asked, values);
    let counts = asked.counts;
    Ok(taken(figures, counts, refs, stepped))
}

// Judges an event whose lists are right.
pub fn judged(
    figures: Figures,
    refs: &mut [u32; 64],
    sizes: &mut [u32; 64],
    free: &[u32; 64],
    rows: &[u32],
    nodes: &mut [u32],
    values: &mut [u32],
    work: &mut [u32],
    event: Event,
) -> Result<Said, Refusal>
    requires { Listed rows.now free.now (machine (whole figures refs.old sizes.old) nodes.old values.old work.old) }
    ensures { Ends rows.now (machine (whole figures refs.old sizes.old) nodes.old values.old work.old) event (said_of figures result) refs.new sizes.new nodes.new values.new work.new }
{
    if !rule::agrees(rows, event) {
        formed(figures, refs, sizes, free, nodes, work)?;
        return Err(Refusal::Event);
    }
    let asked = numbers::ask(figures.k, figures.counts, values, rows, event);
    if let Some(variable) = lists::shortest(figures.k, asked.counts) {
        formed(figures, refs, sizes, free, nodes, work)?;
        return Err(Refusal::Numbers(variable));
    }
    work_on(
        figures, refs, sizes, free, rows, nodes, values, work, event, asked,
    )
}
