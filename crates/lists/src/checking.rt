// The check of the lists in the value slice. What each function promises is in specs/Slots.antt.
ghost use Rattle.std.specs.Prelude.{◌≡◌, ◌*◌, ◌<◌, ◌≤◌, eqb, length, get_or, take, drop};
ghost use Rattle.trees.specs.Kept.{all_below};
ghost use Rattle.meaning.specs.Tables;
ghost use Rattle.meaning.specs.Tables.{list_right, distinct};
ghost use Rattle.numbers.specs.Asking.{with_counts};
ghost use Rattle.lists.specs.Slots.{part_right, Roomy, Checked, Slots, slot_of, next_of, Searchable, Sought};

use numbers::most;

// The slot at which the search for y begins, of `size`: all bits of y take part, so that values in steps of whatever number spread.
fn slot(y: u32, size: usize) -> usize
    requires { (0 < size) × (size ≤ 4294967296) }
    ensures { (result ≡ slot_of size y) × (result < size) }
{
    let low = y as usize * 2654435769 % 4294967296;
    let mixed = (low ^ low / 32768) * 3266489909 % 4294967296;
    mixed * size / 4294967296
}

// The slot behind p; behind the last comes the first.
fn next(size: usize, p: usize) -> usize
    requires { p < size }
    ensures { (result ≡ next_of size p) × (result < size) }
{
    if p + 1 == size { 0 } else { p + 1 }
}

// The slot at which the search for the value at place n ends: a free one, or one that has an earlier place of this value.
fn seek(list: &[u32], size: usize, work: &[u32], n: usize) -> usize
    requires { Searchable list.now work.now size n }
    ensures { Sought list.now work.now size n result }
{
    let y = list[n];
    let mut p = slot(y, size);
    while work[p] != 0 && list[work[p] as usize - 1] != y {
        p = next(size, p);
    }
    p
}

// How many slots the table of `count` values has: at most a third of them get taken, unless the room is short.
fn slots(count: usize, room: usize) -> usize
    requires { (count ≤ 1023) × (1024 ≤ room) }
    ensures { Slots count room result }
{
    room.min(3 * count + 1)
}

// Whether no value stands twice in the list. A slot has 1 more than a place of the list, or 0 where it is free; the place stands in
// the first slot from that of its value on that was free.
fn all_differ(list: &[u32], room: usize, work: &mut [u32]) -> bool
    requires { Roomy room work.old × (length list.now ≤ 1023) }
    ensures { Checked room work.old work.new (distinct list.now) result }
{
    let size = slots(list.len(), room);
    work[..size].fill(0);
    for j in 0..list.len() {
        let p = seek(list, size, work, j);
        if work[p] != 0 {
            return false;
        }
        work[p] = j as u32 + 1;
    }
    true
}

// Whether every number is 0. All are looked at, so that the compiler can take several at a time.
fn all_zero(list: &[u32]) -> bool
    ensures { result ≡ all_below (length list.now) (λ j. eqb (get_or list.now j 0) 0) }
{
    let mut bits = 0;
    for x in list {
        bits |= *x;
    }
    bits == 0
}

// Whether the list of one variable is right: `count` values in a part of m numbers.
fn list_right(m: usize, count: usize, part: &[u32], room: usize, work: &mut [u32]) -> bool
    requires { Roomy room work.old × (m ≤ 1023) × (length part.now ≡ m) }
    ensures { Checked room work.old work.new (part_right m count part.now) result }
{
    if m < count || !all_zero(&part[count..m]) {
        return false;
    }
    all_differ(&part[0..count], room, work)
}

// Whether the four lists are right.
fn all_right(m: usize, counts: [u32; 4], values: &[u32], room: usize, work: &mut [u32]) -> bool
    requires { Roomy room work.old × (m ≤ 1023) × (length values.now ≡ 4 * m) }
    ensures { Checked room work.old work.new (all_below 4 (λ v. part_right m (get_or counts v 0) (take m (drop (v * m) values.now)))) result }
{
    for v in 0..4 {
        let at = v * m;
        let end = at + m;
        let count = counts[v] as usize;
        if !list_right(m, count, &values[at..end], room, work) {
            return false;
        }
    }
    true
}

// Whether the lists are right: no count over 2^k − 1, no value twice in one list, and 0 where the rest is 0. The table in which a list's
// values are looked up stands in the first `room` numbers of the work slice. The caller has checked k and the lengths before (refusals
// 1 and 3).
pub fn lists_right(k: u32, counts: [u32; 4], values: &[u32], room: usize, work: &mut [u32]) -> bool
    requires { (k ≤ 10) × (length values.now ≡ 4 * Tables.most k) × Roomy room work.old }
    ensures { Checked room work.old work.new (all_below 4 (list_right k (with_counts counts) values.now)) result }
{
    let m = most(k) as usize;
    all_right(m, counts, values, room, work)
}
