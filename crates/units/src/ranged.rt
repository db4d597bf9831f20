ghost use Rattle.std.specs.Prelude.{◌≡◌, ◌≤◌};
ghost use Rattle.std.specs.Option.{option_map};
ghost use Rattle.units.specs.Surplus.{within};

// A number from LEAST to MOST, both ends taken.
#[derive(Clone, Copy, PartialEq, Eq, Debug)]
pub struct Ranged<const LEAST: u16, const MOST: u16> {
    value: u16,
    ghost least: { LEAST ≤ value },
    ghost most: { value ≤ MOST },
}

impl<const LEAST: u16, const MOST: u16> Ranged<LEAST, MOST> {
    pub fn new(number: i32) -> Option<Ranged<LEAST, MOST>>
        ensures { option_map (λ r. r.value) result ≡ within LEAST MOST number }
    {
        if number < i32::from(LEAST) || number > i32::from(MOST) {
            return None;
        }
        Some(Ranged {
            value: number as u16,
        })
    }

    pub fn value(self) -> u16
        ensures { result ≡ self.entry.value }
    {
        self.value
    }
}
