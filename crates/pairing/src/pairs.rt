// The pairing of the two sides of an auction.
ghost use Rattle.std.specs.Prelude.{◌≡◌, ◌≤◌, length, sum_by};
ghost use Rattle.pairing.specs.Pairs.{paired};
ghost use Rattle.pairing.specs.Steps.{wanted, Written};

use crate::queue::Interests;
use settling::fill::Fill;

impl Interests {
    // The shares that all of them want.
    fn shares(&self) -> u32
        ensures { result ≡ sum_by wanted self.now.list.items }
    {
        self.list.iter().map(|interest| interest.quantity).sum()
    }
}

// Pairs the first unfilled buy with the first unfilled sell until the shares are used up.
// Writes the fills to the front of the array, and tells how many there are.
pub(crate) fn pair(price: u32, buys: &Interests, sells: &Interests, fills: &mut [Fill]) -> usize
    requires { length (paired price buys.now.list.items sells.now.list.items) ≤ length fills.old }
    ensures { Written (paired price buys.now.list.items sells.now.list.items) fills.old result fills.new }
{
    let mut left = buys.shares().min(sells.shares());
    // Counted by hand: the count is the answer.
    let mut count = 0;
    let mut rest = sells.list.as_slice();
    let mut taken = 0;
    'auction: for buy in buys.list.as_slice() {
        let buyer = buy.number;
        let mut open = buy.quantity;
        while open > 0 {
            let Some((sell, behind)) = rest.split_first() else {
                break 'auction;
            };
            let quantity = open.min(sell.quantity - taken);
            fills[count] = Fill {
                buyer,
                seller: sell.number,
                price,
                quantity,
            };
            count += 1;
            left -= quantity;
            if left == 0 {
                break 'auction;
            }
            open -= quantity;
            taken += quantity;
            if taken == sell.quantity {
                rest = behind;
                taken = 0;
            }
        }
    }
    count
}
