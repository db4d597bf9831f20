ghost use Rattle.std.specs.Prelude.{◌≡◌};
ghost use Rattle.claims.specs.LawfulLists.{single_lawful};
ghost use Rattle.claims.specs.SingleSize.{single_fault, single_weights};
ghost use Rattle.std.specs.Result.{result_map_both};
ghost use Rattle.units.specs.Checks.{answer_unless};

use super::SingleSize;
use crate::{ClaimLaw, LawFault};
use units::{Amount, ONE, Ranged, Weight};

impl SingleSize {
    pub fn new(size: Amount, weight: Weight) -> Result<SingleSize, LawFault>
        ensures size { result_map_both (λ s. s.size.value) (λ f. f) result ≡ answer_unless (single_fault size weight) size.0 }
        ensures weight { result_map_both (λ s. s.weight) (λ f. f) result ≡ answer_unless (single_fault size weight) weight }
    {
        let size = Ranged::new(i32::from(size.0)).ok_or(LawFault::SizeRange)?;
        if weight.0 > ONE {
            return Err(LawFault::WeightAboveOne);
        }
        Ok(SingleSize { size, weight })
    }
}

impl ClaimLaw for SingleSize {
    ghost weights = { λ s. single_weights (record { 0 = s.size.value }) s.weight };

    ghost lawful = { λ s. single_lawful (record { 0 = s.size.value }) s.weight s.size.least s.size.most s.share };

    fn last(&self) -> Amount {
        Amount(self.size.value())
    }

    fn weight(&self, amount: Amount) -> Option<Weight> {
        let last = self.last();
        if amount > last {
            None
        } else if amount == last {
            Some(self.weight)
        } else if amount.0 == 0 {
            Some(Weight(ONE - self.weight.0))
        } else {
            Some(Weight(0))
        }
    }
}
