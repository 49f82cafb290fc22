// Whether a flagged record comes later in the stretch.
ghost use Rattle.std.specs.Prelude.{◌≡◌};
ghost use Rattle.cards.specs.Blocks.{pieces};
ghost use Rattle.cards.specs.Reading.{Before};
ghost use Rattle.cards.specs.Piecewise.{flagged_ahead};
ghost use Rattle.card_block.specs.Judging.{Carries};
ghost use Rattle.card_block.specs.Shapes.{Shaped};
ghost use Rattle.card_mender.specs.Weighing.{looked, looked_on};

use crate::flags::past_last;
use card_block::Carried;
use std::ops::ControlFlow;

// A block that stays and runs on.
fn look_on(piece: &[u8], after: Carried) -> ControlFlow<bool, Carried>
    requires { Shaped piece.now }
    ensures { result ≡ looked_on piece.now after }
{
    if past_last(piece, 0, card_block::records(piece)) != 0 {
        return ControlFlow::Break(true);
    }
    ControlFlow::Continue(after)
}

// Looks at one piece, after what was carried to it. It breaks with whether a flagged record comes before a gap, or goes on with what is carried
// to the next piece.
pub fn look(piece: &[u8], carried: Carried) -> ControlFlow<bool, Carried>
    ensures { result ≡ looked piece.now carried }
{
    match card_block::judge(piece, carried) {
        Err(_) => ControlFlow::Continue(carried),
        Ok(after) => {
            if after.next - 1 == carried.next {
                return look_on(piece, after);
            }
            ControlFlow::Break(false)
        }
    }
}

// Whether a flagged record comes in the rest of a card, before a gap.
pub fn flagged_ahead(rest: &[u8], carried: Carried) -> bool
    ensures { (f : Before) → Carries f carried → result ≡ flagged_ahead f (pieces rest.now) }
{
    let mut carries = carried;
    for piece in rest.chunks(512) {
        match look(piece, carries) {
            ControlFlow::Break(comes) => return comes,
            ControlFlow::Continue(next) => carries = next,
        }
    }
    false
}
