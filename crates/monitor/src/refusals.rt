// Why a call is refused.
ghost use Rattle.std.specs.Prelude.{◌≡◌};
ghost use Rattle.monitor.specs.declared.refusals.Refusal.TheVariants.{Rule};
ghost use Rattle.monitor.specs.Decisions.{answer_of, of_step};

use diagram::Refused;
use meaning::Answer;
use rule::Fault;

// The refusals, 1 to 7, in the order of their tests. That of the rule tells the row of the first fault, and that of the numbers the
// variable that has none left for a value.
#[derive(Clone, Copy)]
pub enum Refusal {
    K,
    Rule(u32),
    Lengths,
    State,
    Event,
    Numbers(u32),
    Room,
}

impl Refusal {
    // The answer that a refusal is: its number, and its place.
    pub fn answer(self) -> Answer
        ensures { result ≡ answer_of self }
    {
        match self {
            Refusal::K => Answer::Refused(1, 0),
            Refusal::Rule(row) => Answer::Refused(2, row),
            Refusal::Lengths => Answer::Refused(3, 0),
            Refusal::State => Answer::Refused(4, 0),
            Refusal::Event => Answer::Refused(5, 0),
            Refusal::Numbers(variable) => Answer::Refused(6, variable),
            Refusal::Room => Answer::Refused(7, 0),
        }
    }
}

impl From<Fault> for Refusal {
    ghost from_gives = { λ f r. r ≡ Rule f.row };

    fn from(fault: Fault) -> Refusal {
        Refusal::Rule(fault.row)
    }
}

// A step is refused where its numbers or lengths are unfit or its diagrams bad, which is the state's fault, or where there is no room.
impl From<Refused> for Refusal {
    ghost from_gives = { λ x r. r ≡ of_step x };

    fn from(refused: Refused) -> Refusal {
        match refused {
            Refused::Unfit | Refused::Bad => Refusal::State,
            Refused::Full => Refusal::Room,
        }
    }
}
