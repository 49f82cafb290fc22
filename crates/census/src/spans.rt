// Names by where they stand in a text.
ghost use Rattle.std.specs.Prelude.{◌≡◌};
ghost use Rattle.census.specs.Tables.{Table};

// Where a name stands.
#[derive(Clone, Copy)]
pub struct Span {
    pub start: u16,
    pub length: u16,
}

impl Span {
    pub const NOWHERE: Span = Span {
        start: 0,
        length: 0,
    };
}

// Names of a text, each by its span.
#[derive(Clone, Copy)]
pub struct Names<'a> {
    pub text: &'a [u8],
    pub spans: &'a [Span],
    pub ghost inside: { Table text.now spans.now },
}

impl Names<'_> {
    ghost use Rattle.std.specs.Prelude.{◌≤◌, length};
    ghost use Rattle.text.specs.Unfold.{number_in};
    ghost use Rattle.census.specs.Tables.{names_at, Found};

    // The number of a name, where it is one of these.
    pub fn find(self, name: &[u8]) -> Option<usize>
        ensures { Found (names_at self.entry.text.now self.entry.spans.now) name.now result }
    {
        for (i, span) in self.spans.iter().enumerate() {
            let start = usize::from(span.start);
            let past = start + usize::from(span.length);
            if &self.text[start..past] == name {
                return Some(i);
            }
        }
        None
    }

    // The number of a name, which is how many there are where it is none of these.
    pub fn number(self, name: &[u8]) -> usize
        ensures number { result ≡ number_in (names_at self.entry.text.now self.entry.spans.now) name.now }
        ensures few { result ≤ length self.entry.spans.now }
    {
        self.find(name).unwrap_or(self.spans.len())
    }
}
