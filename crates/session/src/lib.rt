// What each line of the input does: the parts come in order, and what does not read in its part ends the run.
// What a line leaves, and what is put out for it, is in specs/Lefts.antt.
#![tactic(auto)]

ghost use Rattle.std.specs.Prelude.{◌≡◌, ◌+◌, ◌≤◌, ◌<◌, length};
ghost use Rattle.transcript.specs.Output.{event_of, values_asked};
ghost use Rattle.session.specs.Sessions.{Sound, Sized, Long};
ghost use Rattle.session.specs.Lefts.{opened_session, is_over, quiet_of, bad_as, sizes_as, row_as, started, begin_left, ready_as, happened, event_left, line_left, Begins, Judges, Does};

use answers::{Said, Told};
use lines::Line;
use meaning::{Answer, Event, Fact, State, Value};

// Which line may come next.
#[derive(Clone, Copy)]
pub enum Part {
    // The sizes.
    First,
    // A row, or the first event.
    Rows,
    // An event.
    Events,
    // None: the run has ended.
    Over,
}

// What is carried from line to line, beside the tables.
#[derive(Clone, Copy)]
pub struct Session {
    pub part: Part,
    // The sizes.
    pub k: u32,
    pub c: u32,
    // How many numbers of the rule have come.
    pub rows: usize,
    // How many events have come.
    pub ordinal: u64,
    pub state: State,
}

// The tables that a run is judged in, with room for the largest sizes.
#[derive(Drop)]
pub struct Tables {
    pub rows: [u32; 585],
    pub nodes: [u32; 1536],
    pub values: [u32; 4092],
    pub work: [u32; 9216],
}

// A session, and what is put out.
#[derive(Clone, Copy)]
pub struct After {
    pub session: Session,
    pub told: Told,
}

// The length of the value slice, 4 × (2^k − 1). A k past 10 is refused before the slice is looked at.
fn listed(k: u32) -> usize
    ensures value { result ≡ values_asked k }
    ensures upper_bound { result ≤ 4092 }
{
    if 10 < k {
        return 0;
    }
    4 * ((1 << k) - 1)
}

// How much of each table the sizes and the rule ask for.
#[derive(Clone, Copy)]
struct Lent {
    rows: usize,
    nodes: usize,
    values: usize,
    work: usize,
}

fn lend(s: Session) -> Lent
    requires { Sound s }
    ensures { Sized s result }
{
    let c = s.c as usize;
    Lent {
        rows: s.rows,
        nodes: 3 * c,
        values: listed(s.k),
        work: 16 * c + 1024,
    }
}

// The session before the first line.
pub fn opened() -> Session
    ensures { result ≡ opened_session }
{
    Session {
        part: Part::First,
        k: 0,
        c: 0,
        rows: 0,
        ordinal: 0,
        state: State {
            k: 0,
            rows: 0,
            kept: 0,
            counts: [0; 4],
            refs: [0; 64],
            sizes: [0; 64],
        },
    }
}

// Whether the run has ended.
pub fn over(s: Session) -> bool
    ensures { result ≡ is_over s.part }
{
    matches!(s.part, Part::Over)
}

// Nothing is put out.
fn quiet(s: Session) -> After
    ensures { result ≡ quiet_of s }
{
    After {
        session: s,
        told: Told {
            header: false,
            said: None,
        },
    }
}

// A line that does not read ends the run. Nothing is said of the lines after it.
fn bad(s: Session) -> After
    ensures { result ≡ bad_as s.part s }
{
    match s.part {
        Part::Over => quiet(s),
        _ => After {
            session: Session {
                part: Part::Over,
                ..s
            },
            told: Told {
                header: false,
                said: Some(Said::Bad),
            },
        },
    }
}

// The first line.
fn sizes(s: Session, k: u32, c: u32) -> After
    ensures { result ≡ sizes_as s.part s k c }
{
    match s.part {
        Part::First => quiet(Session {
            part: Part::Rows,
            k,
            c,
            rows: 0,
            ..s
        }),
        _ => bad(s),
    }
}

// One row more. A rule has up to 65 lines: 64 rows are the most that start takes.
#[tactic(auto, using(crate::proofs::PartLaws::row_full_after, crate::proofs::PartLaws::row_full_rows))]
fn row(s: Session, nine: [u32; 9], rows: &mut [u32; 585]) -> After
    ensures { (result ≡ (row_as s.part s nine rows.old).after) × (rows.new ≡ (row_as s.part s nine rows.old).rows) }
{
    let Part::Rows = s.part else {
        return bad(s);
    };
    if 576 < s.rows {
        return bad(s);
    }
    let next = s.rows + 9;
    rows[s.rows..next].copy_from_slice(&nine);
    quiet(Session { rows: next, ..s })
}

// Start, with the header, or with the line that says why not.
fn begin(s: Session, rows: &[u32], nodes: &mut [u32], values: &mut [u32]) -> After
    requires sound { Sound s }
    requires long { (length rows.now ≡ 585) × (length nodes.old ≡ 1536) × (length values.old ≡ 4092) }
    ensures { Begins (begin_left s (started s rows.now nodes.old values.old) nodes.old values.old) result nodes.new values.new }
{
    let lent = lend(s);
    let turn = monitor::start(
        s.k,
        &rows[..lent.rows],
        &mut nodes[..lent.nodes],
        &mut values[..lent.values],
    );
    if let Answer::Refused(number, place) = turn.answer {
        return After {
            session: Session {
                part: Part::Over,
                ..s
            },
            told: Told {
                header: false,
                said: Some(Said::NoStart { number, place }),
            },
        };
    }
    After {
        session: Session {
            part: Part::Events,
            state: turn.state,
            ..s
        },
        told: Told {
            header: true,
            said: None,
        },
    }
}

// What is due before an event and at the end of the input: a missing first line is a bad line, and a rule that has come is started.
pub fn ready(
    s: Session,
    rows: &[u32; 585],
    nodes: &mut [u32; 1536],
    values: &mut [u32; 4092],
) -> After
    requires { Sound s }
    ensures { Begins (ready_as s.part s rows.now nodes.old values.old) result nodes.new values.new }
{
    match s.part {
        Part::First => bad(s),
        Part::Rows => begin(s, rows, nodes, values),
        Part::Events | Part::Over => quiet(s),
    }
}

// An event of a rule that has started, with its answer.
fn happen(
    s: Session,
    header: bool,
    event: Event,
    rows: &[u32],
    nodes: &mut [u32],
    values: &mut [u32],
    work: &mut [u32],
) -> After
    requires sound { Sound s × (s.ordinal < 18446744073709551615) }
    requires long { Long rows.now nodes.old values.old work.old }
    ensures { Judges (happened s header event rows.now nodes.old values.old work.old) result nodes.new values.new work.new }
{
    let lent = lend(s);
    let turn = monitor::event(
        s.state,
        &rows[..lent.rows],
        &mut nodes[..lent.nodes],
        &mut values[..lent.values],
        &mut work[..lent.work],
        event,
    );
    let ordinal = s.ordinal + 1;
    let after = turn.state;
    After {
        session: Session {
            part: Part::Events,
            ordinal,
            state: after,
            ..s
        },
        told: Told {
            header,
            said: Some(Said::Event {
                ordinal,
                answer: turn.answer,
            }),
        },
    }
}

// The event of a line: one fact. The fourth value only makes the count 4, which is refused.
fn event_of(predicate: u32, count: u32, values: [u32; 4]) -> Event
    ensures { result ≡ event_of predicate count values }
{
    let [a, b, c, _] = values;
    let fact = Fact {
        predicate,
        count,
        values: [Value(a), Value(b), Value(c)],
    };
    Event {
        count: 1,
        facts: [fact; 8],
    }
}

// A line that is an event.
fn event(s: Session, event: Event, tables: &mut Tables) -> After
    requires { Sound s × (s.ordinal < 18446744073709551615) }
    ensures judges { Judges (event_left s event tables.old.rows tables.old.nodes tables.old.values tables.old.work) result tables.new.nodes tables.new.values tables.new.work }
    ensures kept { tables.new.rows ≡ tables.old.rows }
{
    let begun = ready(s, &tables.rows, &mut tables.nodes, &mut tables.values);
    match begun.session.part {
        Part::Events => happen(
            begun.session,
            begun.told.header,
            event,
            &tables.rows,
            &mut tables.nodes,
            &mut tables.values,
            &mut tables.work,
        ),
        _ => begun,
    }
}

// One line, or what reads as none.
pub fn line(s: Session, found: Option<Line>, tables: &mut Tables) -> After
    requires { Sound s × (s.ordinal < 18446744073709551615) }
    ensures { Does (line_left s found tables.old.rows tables.old.nodes tables.old.values tables.old.work) result tables.new.rows tables.new.nodes tables.new.values tables.new.work }
{
    let Some(found) = found else {
        return bad(s);
    };
    match found {
        Line::Sizes { k, c } => sizes(s, k, c),
        Line::Row(nine) => row(s, nine, &mut tables.rows),
        Line::Event {
            predicate,
            count,
            values,
        } => event(s, event_of(predicate, count, values), tables),
    }
}
