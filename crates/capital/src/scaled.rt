ghost use Rattle.std.specs.Prelude.{◌≡◌};
ghost use Rattle.capital.specs.Meanings.{scaled_price};
ghost use Rattle.capital.specs.Range.{scaled_fault};
ghost use Rattle.std.specs.Result.{result_map_both};
ghost use Rattle.units.specs.Checks.{answer_unless};
ghost use Rattle.capital.specs.Scale.{scaled-bounded};
ghost use Rattle.std.proofs.Common.{rules};

use crate::{CapitalFault, Penalty};
use units::{Deficit, Ranged, Weight};

// Ruin counts by its deficit, in full from 2^m on, m at most 12.
#[derive(Clone, Copy)]
pub struct Scaled {
    m: Ranged<0, 12>,
}

impl Scaled {
    pub fn new(m: u8) -> Result<Scaled, CapitalFault>
        ensures { result_map_both (λ s. s.m.value) (λ e. e) result ≡ answer_unless (scaled_fault m) m }
    {
        let m = Ranged::new(i32::from(m)).ok_or(CapitalFault::ScaleRange)?;
        Ok(Scaled { m })
    }
}

impl Penalty for Scaled {
    ghost priced = { λ scaled deficit. scaled_price scaled.m.value deficit };

    ghost bounded = { Prim.search (rules, scaled-bounded) };

    fn price(&self, deficit: Deficit) -> Weight {
        let m = self.m.value();
        let full = 1u32 << m;
        let counted = u32::from(deficit.value()).min(full);
        Weight(counted << (30 - m))
    }
}
