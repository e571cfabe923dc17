// The settings of a market: its lot and its tick.
ghost use Rattle.std.specs.Prelude.{◌≡◌, true};
ghost use Rattle.orders.specs.Ticks.{tick_of, valid_settings, grid, settings_answer};
ghost use Rattle.orders.specs.Results.{seen};

use crate::refusal::Refusal;

#[derive(Clone, Copy, PartialEq, Eq, Debug)]
pub struct Settings {
    pub(crate) lot: u16,
    pub(crate) tick_class: u8,
    ghost valid: { valid_settings lot tick_class ≡ true },
}

const LEADS: [u32; 3] = [1, 2, 5];

impl Settings {
    pub fn new(lot: u16, tick_class: u32) -> Result<Settings, Refusal>
        ensures { seen (λ s. grid s.lot s.tick_class) result ≡ settings_answer lot tick_class }
    {
        if lot == 0 || lot > 1_000 || tick_class > 17 {
            return Err(Refusal::Settings);
        }
        Ok(Settings {
            lot,
            tick_class: tick_class as u8,
        })
    }

    // The smallest step of a price.
    pub fn tick(self) -> u32
        ensures { result ≡ tick_of self.tick_class }
    {
        let class = u32::from(self.tick_class);
        LEADS[(class % 3) as usize] * 10u32.pow(class / 3)
    }
}
