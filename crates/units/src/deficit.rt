ghost use Rattle.std.specs.Prelude.{◌≡◌, neg_ℤ};
ghost use Rattle.std.specs.Option.{option_map};
ghost use Rattle.units.specs.Surplus.{within};

use crate::Ranged;

// A deficit that a penalty can be asked for.
#[derive(Clone, Copy, PartialEq, Eq, Debug)]
pub struct Deficit {
    number: Ranged<0, 4095>,
}

impl Deficit {
    // The deficit is the surplus with its sign turned.
    pub fn of_surplus(surplus: i32) -> Option<Deficit>
        ensures { option_map (λ d. d.number.value) result ≡ within 0 4095 (neg_ℤ surplus) }
    {
        let number = Ranged::new(surplus.wrapping_neg())?;
        Some(Deficit { number })
    }

    pub fn value(self) -> u16
        ensures { result ≡ self.number.value }
    {
        self.number.value()
    }
}
