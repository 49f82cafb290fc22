// How an answer is written as numbers.
ghost use Rattle.std.specs.Prelude.{◌≡◌, ◌+◌, ◌*◌, ◌≤◌, ◌++◌, length, take, drop};
ghost use Rattle.linked_rule.specs.Ruling.{places, packed, Small};

use census::spans::Span;
use translate::Translation;
use translate::refusals::Refusal;

// Writes where names stand: their places from `at` on, and behind those their lengths.
fn put_names(names: &[Span], to: &mut [u32], at: usize)
    requires { at + 2 * length names.now ≤ length to.old }
    ensures { to.new ≡ take at to.old ++ places names.now ++ drop (at + 2 * length names.now) to.old }
{
    for (i, name) in names.iter().enumerate() {
        to[at + i] = u32::from(name.start);
    }
    let behind = at + names.len();
    for (j, name) in names.iter().enumerate() {
        to[behind + j] = u32::from(name.length);
    }
}

// Writes what a text is answered with: a refusal's number and place, and zeros; or two zeros, the counts of rows, predicates and variables,
// and where their names stand.
pub fn put(told: Result<Translation, Refusal>, answer: &mut [u32])
    requires long { length answer.old ≡ 141 }
    requires small { Small told }
    ensures { answer.new ≡ packed told }
{
    answer.fill(0);
    match told {
        Err(refusal) => {
            let (number, place) = refusal.number_and_place();
            answer[0] = number;
            answer[1] = place as u32;
        }
        Ok(t) => {
            answer[2] = t.rows as u32;
            answer[3] = t.predicates as u32;
            answer[4] = t.variables as u32;
            put_names(&t.predicate_names, answer, 5);
            put_names(&t.variable_names, answer, 133);
        }
    }
}
