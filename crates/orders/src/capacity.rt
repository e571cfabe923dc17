// The capacities that a store or a waiting line may have.
ghost use Rattle.std.specs.Prelude.{◌≡◌};
ghost use Rattle.orders.specs.Capacities.{capacity_answer};

use crate::refusal::Refusal;

// The most that a store or a waiting line holds.
pub const MOST: usize = 256;

// May a store or a line be made with this length?
pub fn check_capacity(length: usize) -> Result<(), Refusal>
    ensures { result ≡ capacity_answer length }
{
    if length == 0 || length > MOST {
        return Err(Refusal::Capacity);
    }
    Ok(())
}
