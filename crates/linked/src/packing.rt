// How a state, an answer and what looking a value up tells are written as numbers, and a state is read back.
ghost use Rattle.std.specs.Prelude.{◌≡◌, ◌+◌, ◌≤◌, length, take, drop};
ghost use Rattle.linked.specs.Packing.{packed_state, unpacked_state, first_four, packed_answer, packed_lookup};

use meaning::{Answer, State};
use numbers::Lookup;

// The N numbers from place `at` on.
fn part<const N: usize>(numbers: &[u32], at: usize) -> [u32; N]
    requires { at + N ≤ length numbers.now }
    ensures { result ≡ take N (drop at numbers.now) }
{
    let mut part = [0; N];
    part.copy_from_slice(&numbers[at..at + N]);
    part
}

// The state that 135 numbers are.
pub fn unpack(numbers: &[u32]) -> State
    requires { length numbers.now ≡ 135 }
    ensures { result ≡ unpacked_state numbers.now }
{
    let counts = part(numbers, 3);
    let refs = part(numbers, 7);
    let sizes = part(numbers, 71);
    State {
        k: numbers[0],
        rows: numbers[1],
        kept: numbers[2],
        counts,
        refs,
        sizes,
    }
}

// Writes a state as 135 numbers: its figures, its references, and then its sizes.
pub fn pack(state: State, numbers: &mut [u32])
    requires { length numbers.old ≡ 135 }
    ensures { numbers.new ≡ packed_state state }
{
    numbers[0] = state.k;
    numbers[1] = state.rows;
    numbers[2] = state.kept;
    numbers[3..7].copy_from_slice(&state.counts);
    numbers[7..71].copy_from_slice(&state.refs);
    numbers[71..135].copy_from_slice(&state.sizes);
}

// The first 4 numbers of an answer.
fn first_four(answer: Answer) -> [u32; 4]
    ensures { result ≡ first_four answer }
{
    match answer {
        Answer::Started => [0, 0, 0, 0],
        Answer::Verdict(yes, kept, room) => [0, u32::from(yes), kept, room],
        Answer::Refused(number, place) => [number, place, 0, 0],
    }
}

// The 10 numbers of an answer: the visits of the complements and of the sweep behind its own, and the counts of newly numbered values last.
pub fn answered(answer: Answer, complements: u32, swept: u32, numbered: [u32; 4]) -> [u32; 10]
    ensures { result ≡ packed_answer answer complements swept numbered }
{
    let [a, b, c, d] = first_four(answer);
    let [p, q, r, s] = numbered;
    [a, b, c, d, complements, swept, p, q, r, s]
}

// The 2 numbers of what looking a value up tells.
fn told(found: Lookup) -> [u32; 2]
    ensures { result ≡ packed_lookup found }
{
    match found {
        Lookup::Has(n) => [0, n.0],
        Lookup::OneLeft => [1, 0],
        Lookup::NoneLeft => [2, 0],
        Lookup::Misfit => [3, 0],
    }
}

// Writes what looking a value up tells. One by one: from an array in a register the search would put the answer together at every place.
pub fn put_found(found: Lookup, numbers: &mut [u32])
    requires { length numbers.old ≡ 2 }
    ensures { numbers.new ≡ packed_lookup found }
{
    let [which, number] = told(found);
    numbers[0] = which;
    numbers[1] = number;
}
