// Looking a value up among those of a variable that have numbers. A list is searched here and nowhere else.
// What each function promises is in specs/Looking.antt.
ghost use Rattle.std.specs.Prelude.{◌≡◌, ◌*◌, ◌<◌, ◌≤◌, length, get_or};
ghost use Rattle.numbers.specs.Asking.{part_of};
ghost use Rattle.numbers.specs.Looking;
ghost use Rattle.numbers.specs.Looking.{looked_up, look_up};

use super::{Lookup, k_right, listed, most};
use making::Number;
use meaning::Value;

// Looks y up in a list that may have m values.
pub fn look_in(list: &[u32], m: usize, y: Value) -> Lookup
    requires { length list.now ≤ 1023 }
    ensures { result ≡ looked_up m list.now y.0 }
{
    for i in 0..list.len() {
        if list[i] == y.0 {
            return Lookup::Has(Number(i as u32));
        }
    }
    if list.len() < m {
        return Lookup::OneLeft;
    }
    Lookup::NoneLeft
}

// The value slice in its four parts of m values, of which the first `counts[v]` of the part v have numbers.
#[derive(Clone, Copy)]
pub struct Parts<'a> {
    pub m: usize,
    pub counts: [u32; 4],
    pub values: &'a [u32],
}

impl Parts<'_> {
    // Looks y up among the values of variable v, of which m may have numbers.
    pub fn look(&self, v: usize, y: Value) -> Lookup
        requires { (self.now.m ≤ 1023) × (length self.now.values.now ≡ 4 * self.now.m) × (v < 4) × (get_or self.now.counts v 0 ≤ self.now.m) }
        ensures { result ≡ looked_up self.now.m (part_of self.now.m self.now.counts self.now.values.now v) y.0 }
    {
        let at = v * self.m;
        let end = at + self.counts[v] as usize;
        look_in(&self.values[at..end], self.m, y)
    }
}

// Whether k is 1 to 10, the value slice has four parts, the variable is one of the four, and its count is no more than a part has.
fn readable(k: u32, counts: [u32; 4], values: &[u32], variable: u32) -> bool
    ensures { result ≡ Looking.readable k counts values.now variable }
{
    if !k_right(k) || 3 < variable {
        return false;
    }
    values.len() == listed(k) && counts[variable as usize] <= most(k)
}

// "Is this lot new to the rule?" Whether the variable has a number for y, and whether one is left where it has none. The value slice
// and the counts may be any: where there is nothing to look in, the answer says so.
pub fn look_up(k: u32, counts: [u32; 4], values: &[u32], variable: u32, y: Value) -> Lookup
    ensures { result ≡ look_up k counts values.now variable y.0 }
{
    if !readable(k, counts, values, variable) {
        return Lookup::Misfit;
    }
    let parts = Parts {
        m: most(k) as usize,
        counts,
        values,
    };
    parts.look(variable as usize, y)
}
