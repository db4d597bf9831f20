ghost use Rattle.std.specs.Prelude.{◌≡◌};
ghost use Rattle.capital.specs.Meanings.{below_price};
ghost use Rattle.capital.specs.Range.{below_fault};
ghost use Rattle.std.specs.Result.{result_map_both};
ghost use Rattle.units.specs.Checks.{answer_unless};
ghost use Rattle.std.proofs.Common.{rules};

use crate::{CapitalFault, Penalty};
use units::{Deficit, ONE, Ranged, Weight};

// Ruin counts in full if its deficit is less than y, 1 to 4,096.
#[derive(Clone, Copy)]
pub struct Below {
    y: Ranged<1, 4096>,
}

impl Below {
    pub fn new(y: u16) -> Result<Below, CapitalFault>
        ensures { result_map_both (λ b. b.y.value) (λ e. e) result ≡ answer_unless (below_fault y) y }
    {
        let y = Ranged::new(i32::from(y)).ok_or(CapitalFault::DeficitRange)?;
        Ok(Below { y })
    }
}

impl Penalty for Below {
    ghost priced = { λ below deficit. below_price below.y.value deficit };

    ghost bounded = { Prim.search rules };

    fn price(&self, deficit: Deficit) -> Weight {
        if deficit.value() < self.y.value() {
            Weight(ONE)
        } else {
            Weight(0)
        }
    }
}
