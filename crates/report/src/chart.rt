ghost use Rattle.report.specs.Chart.{IsShare};

use run::Pair;
use units::ONE;

// A point of a chart: two doubles, each exactly the bound divided by 2^30.
#[derive(Clone, Copy, PartialEq, Debug)]
pub struct ChartPoint {
    pub lower: f64,
    pub upper: f64,
}

impl From<Pair> for ChartPoint {
    ghost from_gives = { λ pair point. IsShare point.lower pair.lower × IsShare point.upper pair.upper };

    fn from(pair: Pair) -> ChartPoint {
        ChartPoint {
            lower: share(pair.lower),
            upper: share(pair.upper),
        }
    }
}

// A double has more digits than a bound, so nothing is rounded.
fn share(bound: u32) -> f64
    ensures { IsShare result bound }
{
    bound as f64 / ONE as f64
}
