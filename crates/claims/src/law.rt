ghost use Rattle.std.specs.Prelude.{◌≡◌, List};
ghost use Rattle.claims.specs.Law.{Lawful, last_amount};
ghost use Rattle.std.specs.List.{slice_get};
ghost use Rattle.units.specs.declared.Weight.{Weight as WeightOf};

use units::{Amount, Weight};

// A claim law means a list of weights, the first of amount 0.
pub trait ClaimLaw {
    ghost weights: { Self → List WeightOf };

    ghost lawful: { (law : Self) → Lawful (weights law) };

    fn last(&self) -> Amount
        ensures { result.0 ≡ last_amount (weights self.now) };

    // None past the last amount: no weight at all, which is not a weight of zero.
    fn weight(&self, amount: Amount) -> Option<Weight>
        ensures { result ≡ slice_get (weights self.now) amount.0 };
}
