// The memory of results: four numbers a slot, three of the key and one more than the result, 0 in an empty slot. A key has one
// slot, by a mix of its numbers, and is compared in full. With c nodes in the node slice the slots stand in the work slice
// from 5 * c on, at most 2 * c of them.
ghost use Rattle.std.specs.Prelude.{◌≡◌, ◌+◌, ◌*◌, ◌<◌, ◌≤◌, length};
ghost use Rattle.making.specs.Tables.{Spot, Looked, noted};

use crate::lent::Layout;
use nodes::chain::slot;

// The key of a result.
#[derive(Clone, Copy, PartialEq, Eq)]
pub struct Key {
    pub first: u32,
    pub second: u32,
    pub third: u32,
}

// Where the slot of a key begins.
pub fn spot(layout: Layout, key: Key) -> usize
    requires { (layout.c ≤ 4096) × (1 ≤ layout.slots) × (layout.slots ≤ 2 * layout.c) }
    ensures { Spot layout.c layout.slots result }
{
    5 * layout.c + 4 * slot(key.first, key.second, key.third, layout.slots)
}

// The reference of the result that the slot at place i has for a key.
pub fn recall(work: &[u32], i: usize, key: Key) -> Option<u32>
    requires { i + 3 < length work.now }
    ensures { Looked work.now i key.first key.second key.third result }
{
    if work[i] == key.first && work[i + 1] == key.second && work[i + 2] == key.third {
        return work[i + 3].checked_sub(1);
    }
    None
}

// Writes down at place i that r is the result of a key.
pub fn note(work: &mut [u32], i: usize, key: Key, r: u32)
    requires { (i + 3 < length work.old) × (r < 4294967295) }
    ensures { work.new ≡ noted work.old i key.first key.second key.third r }
{
    work[i] = key.first;
    work[i + 1] = key.second;
    work[i + 2] = key.third;
    work[i + 3] = r + 1;
}
