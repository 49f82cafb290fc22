// The monitor: a start checks k, the rule and the lengths, and clears the lent tables; an event is judged, and taken or refused.
// What each call answers and leaves is defined in the crate `meaning`.
#![tactic(auto)]

mod decide;
mod lent;
mod refusals;
mod working;

ghost use Rattle.std.specs.Prelude.{◌≡◌, length};
ghost use Rattle.meaning.specs.Outcome.{state_of};
ghost use Rattle.monitor.specs.Calls.{refused_turn, started_turn, machine, Starts, Happens};
ghost use Rattle.monitor.specs.Decisions.{number_of, place_of, said_of};
ghost use Rattle.monitor.specs.Said.{whole, figures_of, turn_of, refused_said};
ghost use Rattle.monitor.specs.Visits.{Looks};
ghost use Rattle.monitor.specs.Numbered.{Numbers};
ghost use Rattle.monitor.specs.Events.{Ends};

use crate::refusals::Refusal;
use meaning::{Answer, Event, State, Turn};

// The state of `n` rows with nothing kept and no value numbered. That of k 0 and no rows is zero throughout.
fn state_of(k: u32, n: u32) -> State
    ensures { result ≡ state_of k n }
{
    State {
        k,
        rows: n,
        kept: 0,
        counts: [0; 4],
        refs: [0; 64],
        sizes: [0; 64],
    }
}

// The turn of a refused start.
fn refused_start(refusal: Refusal) -> Turn
    ensures { result ≡ refused_turn (number_of refusal) (place_of refusal) }
{
    Turn {
        state: state_of(0, 0),
        answer: refusal.answer(),
    }
}

// The turn of a start that is taken.
fn started(k: u32, n: u32) -> Turn
    ensures { result ≡ started_turn k n }
{
    Turn {
        state: state_of(k, n),
        answer: Answer::Started,
    }
}

// Start: checks k, the rule and the lengths (refusals 1 to 3), and clears both tables.
pub fn start(k: u32, rows: &[u32], nodes: &mut [u32], values: &mut [u32]) -> Turn
    ensures { Starts k rows.now nodes.old values.old result nodes.new values.new }
{
    if let Err(refusal) = decide::judge(k, rows, nodes, values) {
        return refused_start(refusal);
    }
    nodes.fill(0);
    values.fill(0);
    started(k, (rows.len() / 9) as u32)
}

// The numbers of a state beside its references and sizes.
#[derive(Clone, Copy)]
pub struct Figures {
    pub k: u32,
    pub rows: u32,
    pub kept: u32,
    pub counts: [u32; 4],
}

impl Figures {
    // The figures of a state.
    pub fn of(state: &State) -> Figures
        ensures { result ≡ figures_of state.now }
    {
        let counts = state.counts;
        Figures {
            k: state.k,
            rows: state.rows,
            kept: state.kept,
            counts,
        }
    }

    // The state of these figures, and of references and sizes.
    pub fn with(self, refs: [u32; 64], sizes: [u32; 64]) -> State
        ensures { result ≡ whole self refs sizes }
    {
        let counts = self.counts;
        State {
            k: self.k,
            rows: self.rows,
            kept: self.kept,
            counts,
            refs,
            sizes,
        }
    }
}

// What an event on lent references and sizes gives back: the figures after it, the answer, the visits of its complements and of its sweep, and for
// each variable how many values it newly numbered.
#[derive(Clone, Copy)]
pub struct Said {
    pub figures: Figures,
    pub answer: Answer,
    pub complements: u32,
    pub swept: u32,
    pub numbered: [u32; 4],
}

// What is said of a refused event: the figures are those that it got.
fn refused(figures: Figures, refusal: Refusal) -> Said
    ensures { result ≡ refused_said figures (number_of refusal) (place_of refusal) }
{
    Said {
        figures,
        answer: refusal.answer(),
        complements: 0,
        swept: 0,
        numbered: [0; 4],
    }
}

// Tries an event: what is said of one that is taken, or why it is refused.
fn tried(
    figures: Figures,
    refs: &mut [u32; 64],
    sizes: &mut [u32; 64],
    rows: &[u32],
    nodes: &mut [u32],
    values: &mut [u32],
    work: &mut [u32],
    event: Event,
) -> Result<Said, Refusal>
    requires { (length figures.counts ≡ 4) × (length refs.old ≡ 64) × (length sizes.old ≡ 64) }
    ensures { Ends rows.now (machine (whole figures refs.old sizes.old) nodes.old values.old work.old) event (said_of figures result) refs.new sizes.new nodes.new values.new work.new }
{
    let free = decide::judge(figures.k, rows, nodes, values)?;
    let w = 16 * (nodes.len() / 3) + 1024;
    if work.len() < w {
        return Err(Refusal::Lengths);
    }
    if !lent::lists_right(figures, rows.len() / 9, values, w, work) {
        work[0..w].fill(0);
        return Err(Refusal::State);
    }
    working::judged(
        figures, refs, sizes, &free, rows, nodes, values, work, event,
    )
}

// Event, on a state whose references and sizes are lent and become those of after the event: refusals 1 to 7 in their order, or the
// verdict of the rule on the events taken so far.
pub fn event_on(
    figures: Figures,
    refs: &mut [u32; 64],
    sizes: &mut [u32; 64],
    rows: &[u32],
    nodes: &mut [u32],
    values: &mut [u32],
    work: &mut [u32],
    event: Event,
) -> Said
    requires { (length figures.counts ≡ 4) × (length refs.old ≡ 64) × (length sizes.old ≡ 64) }
    ensures happens { Happens rows.now (machine (whole figures refs.old sizes.old) nodes.old values.old work.old) event (turn_of result refs.new sizes.new) nodes.new values.new work.new }
    ensures looks { Looks rows.now (machine (whole figures refs.old sizes.old) nodes.old values.old work.old) event result.answer result.complements result.swept }
    ensures numbers { Numbers rows.now (machine (whole figures refs.old sizes.old) nodes.old values.old work.old) event result.answer result.numbered }
{
    match tried(figures, refs, sizes, rows, nodes, values, work, event) {
        Ok(said) => said,
        Err(refusal) => refused(figures, refusal),
    }
}

// Event, on a state by value.
pub fn event(
    state: State,
    rows: &[u32],
    nodes: &mut [u32],
    values: &mut [u32],
    work: &mut [u32],
    event: Event,
) -> Turn
    ensures { Happens rows.now (machine state nodes.old values.old work.old) event result nodes.new values.new work.new }
{
    let mut refs = state.refs;
    let mut sizes = state.sizes;
    let said = event_on(
        Figures::of(&state),
        &mut refs,
        &mut sizes,
        rows,
        nodes,
        values,
        work,
        event,
    );
    Turn {
        state: said.figures.with(refs, sizes),
        answer: said.answer,
    }
}
