ghost use Rattle.std.specs.Prelude.{◌≤◌};
ghost use Rattle.units.specs.One.{one};

use units::{Ranged, Weight};

pub mod methods;

// Claims of one size or none.
#[derive(Clone, Copy)]
pub struct SingleSize {
    size: Ranged<1, 4095>,
    weight: Weight,
    ghost share: { weight.0 ≤ one },
}
