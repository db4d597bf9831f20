ghost use Rattle.std.specs.Prelude.{◌≡◌, drop};
ghost use Rattle.claims.specs.Law.{total};
ghost use Rattle.claims.specs.LawfulLists.{retained_lawful};
ghost use Rattle.claims.specs.Retained.{retained_weights};

use crate::{ClaimLaw, Limit};
use units::{Amount, Weight};

// What stays with the club of the claims of the law below.
#[derive(Drop)]
pub struct Retained<L> {
    law: L,
    limit: Limit,
}

impl<L: ClaimLaw> Retained<L> {
    pub fn new(law: L, limit: Limit) -> Retained<L>
        ensures law { result.law ≡ law }
        ensures limit { result.limit ≡ limit }
    {
        Retained { law, limit }
    }
}

// The weight of all amounts from `first` on; a weight of zero does not end the sum.
// A counter, since a range beside it would end the loop in two places, which costs several times as much.
fn weight_from<L: ClaimLaw>(law: &L, first: Amount) -> Weight
    ensures { result.0 ≡ total (drop first.0 (L.weights law.now)) }
{
    let mut sum = 0;
    let mut amount = first;
    while let Some(weight) = law.weight(amount) {
        sum += weight.0;
        amount = Amount(amount.0 + 1);
    }
    Weight(sum)
}

impl<L: ClaimLaw> ClaimLaw for Retained<L> {
    ghost weights = { λ r. retained_weights (record { 0 = r.limit.amount.value }) (L.ClaimLaw.weights r.law) };

    ghost lawful = { λ r. retained_lawful (record { 0 = r.limit.amount.value }) (L.ClaimLaw.weights r.law) r.limit.amount.most (L.ClaimLaw.lawful r.law) };

    fn last(&self) -> Amount {
        self.limit.amount().min(self.law.last())
    }

    fn weight(&self, amount: Amount) -> Option<Weight> {
        let limit = self.limit.amount();
        if amount < limit {
            self.law.weight(amount)
        } else if amount > self.last() {
            None
        } else {
            Some(weight_from(&self.law, amount))
        }
    }
}
