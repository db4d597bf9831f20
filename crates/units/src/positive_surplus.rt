ghost use Rattle.std.specs.Prelude.{◌≡◌};
ghost use Rattle.std.specs.Option.{option_map};
ghost use Rattle.units.specs.Surplus.{within};

use crate::Ranged;

// A surplus that a capital rule can be asked for.
#[derive(Clone, Copy, PartialEq, Eq, Debug)]
pub struct PositiveSurplus {
    number: Ranged<1, 8192>,
}

impl PositiveSurplus {
    pub fn new(surplus: i32) -> Option<PositiveSurplus>
        ensures { option_map (λ s. s.number.value) result ≡ within 1 8192 surplus }
    {
        let number = Ranged::new(surplus)?;
        Some(PositiveSurplus { number })
    }

    pub fn value(self) -> u16
        ensures { result ≡ self.number.value }
    {
        self.number.value()
    }
}
