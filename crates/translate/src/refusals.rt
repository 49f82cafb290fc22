// The refusals of a rule text.
ghost use Rattle.std.specs.Prelude.{◌≡◌};
ghost use Rattle.translate.specs.Refusals.{number_of, place_of};

use scan::Stop;

// Of the refusals that apply the first is given. `NoText` has the place at which no rule text can go on.
#[derive(Clone, Copy, PartialEq, Eq)]
pub enum Refusal {
    WrongSlice,
    TooLong,
    NoText(usize),
    LargeConstant,
    ManyArguments,
    ManyVariables,
    TwoCounts,
    FreeVariable,
    ManyRows,
}

impl Refusal {
    // The refusal's number and its place, which is 0 for all but `NoText`.
    pub fn number_and_place(self) -> (u32, usize)
        ensures { (result.0 ≡ number_of self) × (result.1 ≡ place_of self) }
    {
        match self {
            Refusal::WrongSlice => (1, 0),
            Refusal::TooLong => (2, 0),
            Refusal::NoText(place) => (3, place),
            Refusal::LargeConstant => (4, 0),
            Refusal::ManyArguments => (5, 0),
            Refusal::ManyVariables => (6, 0),
            Refusal::TwoCounts => (7, 0),
            Refusal::FreeVariable => (8, 0),
            Refusal::ManyRows => (9, 0),
        }
    }
}

impl From<Stop> for Refusal {
    ghost use Rattle.translate.specs.Refusals.{no_text};

    ghost from_gives = { λ stop r. r ≡ no_text stop };

    fn from(stop: Stop) -> Self {
        Refusal::NoText(stop.place)
    }
}
