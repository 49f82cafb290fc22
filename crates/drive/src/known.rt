// The names of a text.
ghost use Rattle.std.specs.Prelude.{◌≤◌, length};
ghost use Rattle.census.specs.Tables.{Table};

use census::spans::{Names, Span};

// A text with the names of its predicates and of its variables, in order of their numbers.
#[derive(Clone, Copy)]
pub struct Known<'a> {
    pub text: &'a [u8],
    pub predicates: &'a [Span],
    pub variables: &'a [Span],
    pub ghost called: { Table text.now predicates.now },
    pub ghost bound: { Table text.now variables.now },
    pub ghost few: { (length predicates.now ≤ 4096) × (length variables.now ≤ 4) },
}

impl<'a> Known<'a> {
    ghost use Rattle.std.specs.Prelude.{◌≡◌};
    ghost use Rattle.text.specs.Unfold.{number_in};
    ghost use Rattle.census.specs.Tables.{names_at};

    // The names of predicates.
    pub fn predicate_names(self) -> Names<'a>
        ensures { (result.text.now ≡ self.entry.text.now) × (result.spans.now ≡ self.entry.predicates.now) }
    {
        Names {
            text: self.text,
            spans: self.predicates,
        }
    }

    // The names of variables.
    pub fn variable_names(self) -> Names<'a>
        ensures { (result.text.now ≡ self.entry.text.now) × (result.spans.now ≡ self.entry.variables.now) }
    {
        Names {
            text: self.text,
            spans: self.variables,
        }
    }

    // The number of the predicate with the name, or how many there are.
    pub fn predicate(self, name: &[u8]) -> u32
        ensures { result ≡ number_in (names_at self.entry.text.now self.entry.predicates.now) name.now }
    {
        self.predicate_names().number(name) as u32
    }

    // The slot of the variable with the name, or how many there are.
    pub fn slot(self, name: &[u8]) -> u8
        ensures slot { result ≡ number_in (names_at self.entry.text.now self.entry.variables.now) name.now }
        ensures small { result ≤ 4 }
    {
        self.variable_names().number(name) as u8
    }
}
