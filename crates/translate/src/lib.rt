// Request A1: a rule text, and the rows that mean it or a refusal. What a rule text is and what it is answered with is in the crate text;
// the promise is specs/Translated.antt. Total: any bytes, and a row slice of any length. Assumes nothing.
#![tactic(auto)]

mod laying;
mod reading;
pub mod refusals;

ghost use Rattle.std.specs.Prelude.{◌≡◌, ◌≤◌, length};
ghost use Rattle.text.specs.Grammar.{HasReading};
ghost use Rattle.translate.specs.Translated.{Translated};

use census::spans::Span;
use reading::{limits, with_names};
use refusals::Refusal;
use scan::scan;

// How many bytes a text may have.
const LONGEST: usize = 4096;

// What a text that is taken is answered with: how many rows, predicates and variables there are, and where the names of predicates and of
// variables stand in the text, in order of their numbers, the rest being nowhere.
#[derive(Clone, Copy)]
pub struct Translation {
    pub rows: usize,
    pub predicates: usize,
    pub variables: usize,
    pub predicate_names: [Span; 64],
    pub variable_names: [Span; 4],
}

// Refusals 4 to 9 of a rule text, or its rows.
fn read(text: &[u8], rows: &mut [u32]) -> Result<Translation, Refusal>
    requires { HasReading text.now × (length text.now ≤ 4096) × (length rows.old ≡ 576) }
    ensures { Translated text.now rows.old rows.new result }
{
    limits(text)?;
    with_names(text, rows)
}

// A rule text is translated: its rows are written, the rest of the row slice being 0, or it is refused and the row slice is as it was.
pub fn translate(text: &[u8], rows: &mut [u32]) -> Result<Translation, Refusal>
    ensures { Translated text.now rows.old rows.new result }
{
    if rows.len() != 576 {
        return Err(Refusal::WrongSlice);
    }
    if LONGEST < text.len() {
        return Err(Refusal::TooLong);
    }
    scan(text)?;
    read(text, rows)
}
