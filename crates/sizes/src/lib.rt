// Sizes: of each row, how many different nodes its diagram has. Rows share nodes, so each kept node gets a word of rows, a bit a
// row: the rows' roots are marked first, and one pass from the last node to the first gives each node's word to both its sides and
// counts its bits. Children stand before parents, so a word is complete when it is reached. A word has 32 bits: the rows
// before 32 and those from 32 on take a pass each. Assumes nothing.
#![tactic(auto)]

ghost use Rattle.std.specs.Prelude.{◌≡◌, map, ℕ, ◌+◌, ◌*◌, ◌-◌, ◌<◌, ◌≤◌, length, get_or, replicate};
ghost use Rattle.trees.specs.Kept.{diagrams};
ghost use Rattle.trees.specs.Sizes.{sizes_of};
ghost use Rattle.nodes.specs.Nodes.{Rest, Decides};
ghost use Rattle.sizes.specs.Leading.{Leading};
ghost use Rattle.sizes.specs.Words.{has_row, give, given, Counts, Pushed, Sized};

use nodes::table::Nodes;

// Joins the rows of w to the word of the node that r leads to.
fn join(words: &mut [u32], r: u32, w: u32)
    requires { r < length words.old + 2 }
    ensures { (base : ℕ) → map (has_row base) words.new ≡ give (map (has_row base) words.old) r (has_row base w) }
{
    if 2 <= r {
        words[r as usize - 2] |= w;
    }
}

// Marks the roots of the n rows from `base` on.
fn mark_roots(refs: &[u32; 64], base: u32, n: u32, words: &mut [u32])
    requires base_bound { (base ≤ 32) × (n ≤ 32) }
    requires by_index { (t : ℕ) → t < n → get_or refs.now (base + t) 0 < length words.old + 2 }
    ensures { map (has_row base) words.new ≡ given (map (has_row base) words.old) refs.now base n }
{
    for t in 0..n {
        join(words, refs[(base + t) as usize], 1 << t);
    }
}

// Counts a word's rows, each into its size: w & (w - 1) is w without its lowest bit.
fn count_rows(word: u32, base: u32, sizes: &mut [u32; 64])
    requires { (base ≤ 32) × (length sizes.old ≡ 64) × ((i : ℕ) → get_or sizes.old i 0 ≤ 8192) }
    ensures { Counts (has_row base word) sizes.old sizes.new }
{
    let mut w = word;
    while w != 0 {
        sizes[(base + w.trailing_zeros()) as usize] += 1;
        w &= w - 1;
    }
}

// Gives each node's word to both its sides, from the last node to the first, and counts its rows.
fn push_down(nodes: Nodes, base: u32, words: &mut [u32], sizes: &mut [u32; 64])
    requires words_len { (length words.old ≡ nodes.count) }
    requires base_bound { (base ≤ 32) × (length sizes.old ≡ 64) × ((i : ℕ) → get_or sizes.old i 0 ≤ 4096) }
    ensures { Pushed nodes.entry.slice.now nodes.entry.count (map (has_row base) words.old) sizes.old sizes.new }
{
    for j in (0..nodes.count as usize).rev() {
        let w = words[j];
        join(words, nodes.slice[3 * j + 1], w);
        join(words, nodes.slice[3 * j + 2], w);
        count_rows(w, base, sizes);
    }
}

// Adds the sizes of the n rows from `base` on.
fn pass(nodes: Nodes, refs: &[u32; 64], base: u32, n: u32, words: &mut [u32], sizes: &mut [u32; 64])
    requires words_len { (length words.old ≡ nodes.count) }
    requires base_bound { (base ≤ 32) × (n ≤ 32) × ((t : ℕ) → t < n → get_or refs.now (base + t) 0 < nodes.count + 2) }
    requires sizes_len { (length sizes.old ≡ 64) × ((i : ℕ) → get_or sizes.old i 0 ≤ 4096) }
    ensures { Sized nodes.entry.slice.now nodes.entry.count refs.now base n sizes.old sizes.new }
{
    words.fill(0);
    mark_roots(refs, base, n, words);
    push_down(nodes, base, words, sizes);
}

// Leaves in `sizes`, for each of the first `count` rows, the number of different nodes of its diagram, and 0 past the rows. The
// first nodes.count numbers of the work slice are the words, and hold what is left of them; the others stay.
pub fn sizes(nodes: Nodes, refs: &[u32; 64], count: u32, work: &mut [u32], sizes: &mut [u32; 64])
    requires leading { Leading refs.now count nodes.count }
    requires count_in_bounds { (nodes.count ≤ length work.old) × (length sizes.old ≡ 64) }
    ensures sizes_after { sizes.new ≡ sizes_of (diagrams nodes.entry.slice.now nodes.entry.count refs.now count) }
    ensures rest { Rest nodes.entry.count work.old work.new }
{
    sizes.fill(0);
    let words = &mut work[..nodes.count as usize];
    pass(nodes, refs, 0, count.min(32), words, sizes);
    if 32 < count {
        pass(nodes, refs, 32, count - 32, words, sizes);
    }
}

// Whether the sizes told are those of the rows' diagrams. It uses the work slice as `sizes` does.
pub fn sizes_right(
    nodes: Nodes,
    refs: &[u32; 64],
    count: u32,
    work: &mut [u32],
    told: &[u32; 64],
) -> bool
    requires leading { Leading refs.now count nodes.count }
    requires count_in_bounds { (nodes.count ≤ length work.old) × (length told.now ≡ 64) }
    ensures decides { Decides (told.now ≡ sizes_of (diagrams nodes.entry.slice.now nodes.entry.count refs.now count)) result }
    ensures rest { Rest nodes.entry.count work.old work.new }
{
    let mut own = [0; 64];
    sizes(nodes, refs, count, work, &mut own);
    *told == own
}
