// The count that is noted for a name, if any, in two bytes: 4,096 of them are there beside the names of a text.
ghost use Rattle.std.specs.Prelude.{◌≡◌, ◌<◌, ℕ, Option, Some, None};
ghost use Rattle.std.proofs.Common.{ap};
ghost use Rattle.census.specs.TwoBytes.{count_below, one_above, above_below};

use std::marker::Model;

// 0 where no count is noted, and else one more than the count.
#[derive(Clone, Copy)]
pub struct Noted {
    above: u16,
}

impl Model for Noted {
    ghost Value = { Option ℕ };

    ghost view = { λ n. count_below n.above };

    ghost inverse = { λ o. record { above = one_above o } };

    ghost inverse_ok = { λ a h. ap (λ (n : ℕ). record { above = n }) (above_below a.above) };
}

impl Noted {
    pub const NOTHING: Noted = Noted { above: 0 };

    // The count is noted.
    pub fn count(count: u16) -> Self
        requires { count < 65535 }
        ensures { result ≡ Some count }
    {
        Noted { above: count + 1 }
    }

    // The count, if one is noted.
    pub fn get(self) -> Option<u16>
        ensures { result ≡ self }
    {
        self.above.checked_sub(1)
    }
}
