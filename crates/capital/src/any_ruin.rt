ghost use Rattle.capital.specs.Meanings.{any_ruin_price};
ghost use Rattle.std.proofs.Common.{rules};

use crate::Penalty;
use units::{Deficit, ONE, Weight};

// Every ruin counts in full.
#[derive(Clone, Copy)]
pub struct AnyRuin;

impl Penalty for AnyRuin {
    ghost priced = { λ _ deficit. any_ruin_price deficit };

    ghost bounded = { Prim.search rules };

    fn price(&self, _deficit: Deficit) -> Weight {
        Weight(ONE)
    }
}
