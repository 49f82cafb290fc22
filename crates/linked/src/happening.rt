// How the facts of an event are read from numbers, five for each fact. What is read is in specs/Happening.antt.
ghost use Rattle.std.specs.Prelude.{◌≡◌, ◌<◌, get_or};
ghost use Rattle.linked.specs.Happening.{fact_at, count_of, event_of};

use meaning::{Event, Fact, Value};

// The number at place `i`, or 0 past the last.
fn number_at(numbers: &[u32], i: usize) -> u32
    ensures { result ≡ get_or numbers.now i 0 }
{
    numbers.get(i).copied().unwrap_or(0)
}

// The fact at place `i`.
fn fact_at(numbers: &[u32], i: usize) -> Fact
    requires { i < 8 }
    ensures { result ≡ fact_at numbers.now i }
{
    let at = 5 * i;
    let first = Value(number_at(numbers, at + 2));
    let second = Value(number_at(numbers, at + 3));
    let third = Value(number_at(numbers, at + 4));
    Fact {
        predicate: number_at(numbers, at),
        count: number_at(numbers, at + 1),
        values: [first, second, third],
    }
}

// How many facts there are: 9 stands for all that are too many.
fn count_of(numbers: &[u32]) -> u32
    ensures { result ≡ count_of numbers.now }
{
    (numbers.len() / 5).min(9) as u32
}

// The event of these facts.
pub fn event(numbers: &[u32]) -> Event
    ensures { result ≡ event_of numbers.now }
{
    let mut facts = [fact_at(numbers, 0); 8];
    for i in 0..8 {
        facts[i] = fact_at(numbers, i);
    }
    Event {
        count: count_of(numbers),
        facts,
    }
}
