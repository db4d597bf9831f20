// What is told: the lines that the program writes, made on the heap, and the points of a chart.
#![tactic(auto)]

ghost use Rattle.std.specs.Prelude.{◌≡◌, IfOk, string_bytes};
ghost use Rattle.report.specs.Lines.{refusal_line_lem, end_line_lem, answer_line_lem};

use run::{Answer, Pair};
use std::alloc::{AllocError, Global};
use units::Level;

mod chart;

pub use chart::ChartPoint;

#[cfg(test)]
mod tests;

// A refusal, by its number, since the faults of every layer are told so, and the offset of its record.
pub fn refusal_line(heap: Global, number: u16, offset: usize) -> Result<String, AllocError>
    ensures { IfOk result (λ line. string_bytes line ≡ refusal_line_lem number offset) }
{
    format!(in heap; "no {number} {offset}\n")
}

// The last line: how many whole records the feed had.
pub fn end_line(heap: Global, count: usize) -> Result<String, AllocError>
    ensures { IfOk result (λ line. string_bytes line ≡ end_line_lem count) }
{
    format!(in heap; "end {count}\n")
}

// A level's answer: its bounds, the periods they cover and the weight left out.
pub fn answer_line(heap: Global, level: Level, answer: Answer) -> Result<String, AllocError>
    ensures { IfOk result (λ line. string_bytes line ≡ answer_line_lem level.0 answer) }
{
    let (level, periods, dropped) = (level.0, answer.periods.0, answer.dropped.0);
    let Pair { lower, upper } = answer.pair;
    format!(in heap; "u {level} {lower} {upper} {periods} {dropped}\n")
}
