// A table of rows, nine numbers each: the row with these numbers is found or made.
ghost use Rattle.std.specs.Prelude.{◌≡◌, ℕ, ◌≤◌, List, [], length, take, position, nat_eq};
ghost use Rattle.std.specs.Cmp.Lexicographic.{pointwise};
ghost use Rattle.rowing.specs.Denoted.{Makes};

use std::marker::Model;

// At most 64 rows.
#[derive(Drop)]
pub struct Table {
    rows: [[u32; 9]; 64],
    count: usize,
}

impl Model for Table {
    ghost Value = { List (List ℕ) };

    ghost view = { λ t. take t.count t.rows };

    ghost invariant = { λ t. t.count ≤ 64 };
}

// Whether two rows have the same numbers: rows that differ do so early.
fn is_same(row: &[u32; 9], nine: &[u32; 9]) -> bool
    ensures { result ≡ pointwise nat_eq row.now nine.now }
{
    for i in 0..9 {
        if row[i] != nine[i] {
            return false;
        }
    }
    true
}

// The place of the first row with these numbers.
fn find(rows: &[[u32; 9]], nine: &[u32; 9]) -> Option<usize>
    ensures { result ≡ position (λ row. pointwise nat_eq row nine.now) rows.now }
{
    rows.iter().position(|row| is_same(row, nine))
}

impl Table {
    // No rows.
    pub fn new() -> Self
        ensures { result ≡ [] }
    {
        Table {
            rows: [[0; 9]; 64],
            count: 0,
        }
    }

    // All rows go.
    pub fn clear(&mut self)
        ensures { self.new ≡ [] }
    {
        self.count = 0;
    }

    // The rows, in the order in which they were made.
    pub fn rows(&self) -> &[[u32; 9]]
        ensures rows { result.now ≡ self.now }
        ensures few { length self.now ≤ 64 }
    {
        &self.rows[..self.count]
    }

    // The row with these numbers: found, or made where there is room.
    pub fn make(&mut self, nine: [u32; 9]) -> Option<u8>
        ensures { Makes self.old nine self.new result }
    {
        let made = self.count;
        if let Some(row) = find(&self.rows[..made], &nine) {
            return Some(row as u8);
        }
        if made == 64 {
            return None;
        }
        self.rows[made] = nine;
        self.count += 1;
        Some(made as u8)
    }
}
