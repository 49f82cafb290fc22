// A rule text: refusals 4 to 9 in order, and its rows.
ghost use Rattle.std.specs.Prelude.{◌≡◌, ◌≤◌, length};
ghost use Rattle.text.specs.Grammar.{HasReading};
ghost use Rattle.census.specs.Tables.{nowhere};
ghost use Rattle.census.specs.Clashes.{Predicates};
ghost use Rattle.census.specs.Scopes.{Variables};
ghost use Rattle.drive.specs.Driving.{Passed};
ghost use Rattle.translate.specs.Translated.{laid, Limits, Translated};

use crate::Translation;
use crate::laying::lay;
use crate::refusals::Refusal;
use census::calls::too_many;
use census::constants::too_large;
use census::counts::clashes;
use census::names::{Wanted, names};
use census::scopes::has_free;
use census::spans::Span;
use drive::known::Known;
use drive::pass::rows_of;
use rowing::table::Table;

// Refusals 4 and 5.
pub fn limits(text: &[u8]) -> Result<(), Refusal>
    requires { HasReading text.now }
    ensures { Limits text.now result }
{
    if too_large(text) {
        return Err(Refusal::LargeConstant);
    }
    if too_many(text) {
        return Err(Refusal::ManyArguments);
    }
    Ok(())
}

// The spans come first, and the rest is nowhere.
fn placed<const N: usize>(from: &[Span]) -> [Span; N]
    requires { length from.now ≤ N }
    ensures { result ≡ laid nowhere N from.now }
{
    let mut to = [Span::NOWHERE; N];
    lay(from, Span::NOWHERE, &mut to);
    to
}

// The names being known: refusals 7 to 9, or the rows.
fn with_known(known: Known, rows: &mut [u32]) -> Result<Translation, Refusal>
    requires has_reading { HasReading known.text.now × (length known.text.now ≤ 4096) × Passed known.text.now }
    requires names { Predicates known.text.now known.predicates.now × Variables known.text.now known.variables.now }
    requires rows_len { length rows.old ≡ 576 }
    ensures { Translated known.entry.text.now rows.old rows.new result }
{
    if clashes(known.predicate_names()) {
        return Err(Refusal::TwoCounts);
    }
    if has_free(known.variable_names()) {
        return Err(Refusal::FreeVariable);
    }
    let mut table = Table::new();
    rows_of(known, &mut table).ok_or(Refusal::ManyRows)?;
    let made = table.rows();
    let numbers = made.as_flattened();
    lay(numbers, 0, rows);
    Ok(Translation {
        rows: made.len(),
        predicates: known.predicates.len(),
        variables: known.variables.len(),
        predicate_names: placed(known.predicates),
        variable_names: placed(known.variables),
    })
}

// Refusal 6 and the names, then the rest. 4,096 bytes have no more than 4,096 names.
pub fn with_names(text: &[u8], rows: &mut [u32]) -> Result<Translation, Refusal>
    requires has_reading { HasReading text.now × (length text.now ≤ 4096) × Passed text.now }
    requires rows_len { length rows.old ≡ 576 }
    ensures { Translated text.now rows.old rows.new result }
{
    let mut variables = [Span::NOWHERE; 4];
    let Some(v) = names(text, &mut variables, Wanted::Variables) else {
        return Err(Refusal::ManyVariables);
    };
    let mut predicates = [Span::NOWHERE; 4096];
    let Some(p) = names(text, &mut predicates, Wanted::Predicates) else {
        unreachable!();
    };
    let known = Known {
        text,
        predicates: &predicates[..p],
        variables: &variables[..v],
    };
    with_known(known, rows)
}
