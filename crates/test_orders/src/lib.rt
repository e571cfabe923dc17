// Orders for tests: all are participant 7's.
#![tactic(auto)]

ghost use Rattle.std.specs.Prelude.{◌≡◌};
ghost use Rattle.test_orders.specs.Made.{made};

use orders::terms::{Kind, Side, Terms};

pub fn terms(number: u32, side: Side, kind: Kind, quantity: u32) -> Terms
    ensures { result ≡ made number side kind quantity }
{
    Terms {
        number,
        participant: 7,
        side,
        kind,
        quantity,
    }
}
