// The journal of a day: its calls with their answers, and all that was triggered, filled and told by receipts, in sequence.
ghost use Rattle.std.specs.Prelude.{◌≡◌, vec_len, sum_by};
ghost use Rattle.days.specs.Counts.{stops_in, fills_in, receipts_in};

use crate::note::Note;
use locked_stock::receipt::Receipt;
use orders::terms::Terms;
use settling::fill::Fill;

#[derive(Drop)]
pub struct Journal {
    pub(crate) notes: Vec<Note>,
    pub(crate) triggered: Vec<Terms>,
    pub(crate) fills: Vec<Fill>,
    pub(crate) receipts: Vec<Receipt>,
    ghost stops_told: { sum_by (λ n. stops_in n.answer) notes.items ≡ vec_len triggered },
    ghost fills_told: { sum_by (λ n. fills_in n.answer) notes.items ≡ vec_len fills },
    ghost receipts_told: { sum_by (λ n. receipts_in n.answer) notes.items ≡ vec_len receipts },
}
