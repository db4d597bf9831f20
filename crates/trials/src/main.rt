// Tries what is not proved as a theorem: a figure, every limit and refusal, feeds, and small runs beside exact sums.
#![tactic(auto)]

mod cases;
mod engine;
mod exact;
mod figures;
mod limits;
mod refusals;
mod runs;
mod sessions;
mod verdict;

use std::io;
use verdict::Verdicts;

fn main(rt: HostRuntime) -> io::Result<()> {
    let mut verdicts = Verdicts::new(&rt);
    figures::all(&mut verdicts)?;
    limits::all(&mut verdicts)?;
    refusals::all(&mut verdicts)?;
    sessions::all(&mut verdicts)?;
    runs::all(&mut verdicts)?;
    verdicts.sum_up()
}
