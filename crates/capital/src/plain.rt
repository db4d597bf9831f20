ghost use Rattle.capital.specs.Meanings.{plain_level};
ghost use Rattle.std.proofs.Common.{rules};

use crate::CapitalRule;
use units::{Level, PositiveSurplus};

// The surplus stays as it is.
#[derive(Clone, Copy)]
pub struct Plain;

impl CapitalRule for Plain {
    ghost carried = { λ _ surplus. plain_level surplus };

    ghost within = { Prim.search rules };

    ghost rising = { Prim.search rules };

    fn carry(&self, surplus: PositiveSurplus) -> Level {
        Level(surplus.value())
    }
}
