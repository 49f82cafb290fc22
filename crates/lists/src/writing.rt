// How an event's fresh values are written, where no variable is short. What each function promises is in specs/Writing.antt.
ghost use Rattle.std.specs.Prelude.{◌≡◌, ◌-◌, ◌<◌, ◌≤◌, IfSome, ltb, get_or};
ghost use Rattle.meaning.specs.Rows.{first_below};
ghost use Rattle.meaning.specs.Tables;
ghost use Rattle.meaning.specs.Tables.{list_of, lay_values};
ghost use Rattle.numbers.specs.Asking.{with_counts, with_fresh, bare};
ghost use Rattle.lists.specs.Writing.{lowest, Writable, WritableAt, written};

use meaning::Value;
use numbers::{Asked, most};

// The lowest variable with more values than numbers, if any.
pub fn shortest(k: u32, counts: [u32; 4]) -> Option<u32>
    requires { k ≤ 10 }
    ensures { lowest result ≡ first_below 4 (λ v. ltb (Tables.most k) (get_or counts v 0)) × IfSome result (λ v. v < 4) }
{
    // There are 2^k numbers, and the last of them is reserved: as many values as numbers are too many.
    let numbers = most(k) + 1;
    for v in 0..4 {
        if numbers <= counts[v] {
            return Some(v as u32);
        }
    }
    None
}

// Writes the fresh values of variable v: it had b values, and now has n.
fn write_list(m: usize, b: u32, n: u32, fresh: &[Value; 96], values: &mut [u32], v: usize)
    requires { WritableAt m b n values.old v }
    ensures { values.new ≡ written m b (bare fresh.now) v (n - b) values.old }
{
    let at = v * m + b as usize;
    let from = 24 * v;
    for j in 0..(n - b) as usize {
        values[at + j] = fresh[from + j].0;
    }
}

// Writes the fresh values behind those of before. The caller has checked the lists (refusal 4), that no variable is short (refusal 6), and
// got the fresh values from `ask`. Only a variable that has grown takes time.
pub fn write_fresh(k: u32, before: [u32; 4], asked: &Asked, values: &mut [u32])
    requires { Writable k before asked.now values.old }
    ensures { values.new ≡ lay_values k (with_fresh before asked.now.counts (bare asked.now.fresh) (list_of k (with_counts before) values.old)) }
{
    let m = most(k) as usize;
    for v in 0..4 {
        write_list(m, before[v], asked.counts[v], &asked.fresh, values, v);
    }
}
