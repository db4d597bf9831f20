ghost use Rattle.std.specs.Prelude.{◌≡◌, ℕ, ◌+◌, ◌-◌, ◌<◌, ◌≤◌, map, length, drop, pos, neg_ℤ, ◌≤ℤ◌, IfSome, slice_index, slice_index_or};
ghost use Rattle.claims.specs.Law.{total};
ghost use Rattle.run.specs.Advance.{known_by, known_after, nil, sum_below, board_after, spare_after};
ghost use Rattle.run.specs.Calls.{advances, after, advance_answer};
ghost use Rattle.run.specs.Gathered.{reaches, cost_pair, pair_from, where_known, worked_of};
ghost use Rattle.run.specs.Period.{cut, LeastCut, weight_at, dropped};
ghost use Rattle.run.specs.Views.{held_by, meant};
ghost use Rattle.std.specs.List.{range_with_len};
ghost use Rattle.std.specs.Bool.{then_some};
ghost use Rattle.units.specs.One.{one};
ghost use Rattle.units.specs.Surplus.{surplus_of};

use super::{Opened, Run, Worked};
use crate::pair::NIL;
use crate::{Pair, Period, RunFault};
use capital::{CapitalRule, Penalty};
use claims::ClaimLaw;
use units::{Amount, Deficit, Level, ONE, PositiveSurplus, Weight, surplus};

// The number of amounts below the cut, and the weight of the others. A count beside the array, since no memory is asked for.
#[derive(Clone, Copy)]
struct Cut {
    amounts: u16,
    dropped: u32,
}

// Asks the law once for each amount below the cut. The weights end the list, last amount first.
fn gather_weights<L: ClaimLaw>(law: &L, allowance: Weight, slots: &mut [u32; 4096]) -> Cut
    ensures within { result.amounts ≤ 4096 }
    ensures allowed { result.dropped ≤ allowance.0 }
    ensures least { LeastCut allowance.0 (L.weights law.now) result.amounts }
    ensures amounts { result.amounts ≡ cut allowance.0 (L.weights law.now) }
    ensures dropped { result.dropped ≡ total (drop result.amounts (L.weights law.now)) }
    ensures slots { (j : ℕ) → j < result.amounts → slice_index slots.new (4095 - j) ≡ weight_at (L.weights law.now) j }
{
    let mut tail = ONE;
    for amounts in 0..4096 {
        if tail <= allowance.0 {
            return Cut {
                amounts,
                dropped: tail,
            };
        }
        // A law's last tail is 0, which no allowance is below: the loop ends before the law does.
        let Some(weight) = law.weight(Amount(amounts)) else {
            unreachable!();
        };
        // By place: over iter_mut().rev() no invariant can name what the loop has written.
        slots[4095 - amounts as usize] = weight.0;
        tail -= weight.0;
    }
    Cut {
        amounts: 4096,
        dropped: tail,
    }
}

// What a surplus costs, unless it leads to a level that the old row does not know. The one place that decides ruin.
fn cost<R: CapitalRule, P: Penalty>(
    rule: &R,
    penalty: &P,
    old: &[Pair],
    surplus: i32,
) -> Option<Pair>
    requires least { neg_ℤ (pos 4095) ≤ℤ surplus }
    requires most { surplus ≤ℤ pos 8192 }
    ensures { result ≡ then_some (reaches (R.carried rule.now) (length old.now) surplus)
        (cost_pair (R.carried rule.now) (P.priced penalty.now) old.now surplus) }
{
    if let Some(deficit) = Deficit::of_surplus(surplus) {
        let price = penalty.price(deficit);
        return Some(Pair {
            lower: price.0,
            upper: price.0,
        });
    }
    let level = rule.carry(PositiveSurplus::new(surplus)?);
    old.get(level.0 as usize).copied()
}

// Asks penalty and rule once for each surplus that a known level can end with, from the one that `largest` leaves of
// level 0 upward, and answers how many levels are known then. Not inlined: its loop is then as fast in each program.
#[inline(never)]
fn gather_costs<R: CapitalRule, P: Penalty>(
    rule: &R,
    penalty: &P,
    largest: Amount,
    old: &[Pair],
    long: u16,
    costs: &mut [Pair; 12288],
) -> u16
    requires long { long ≤ 8192 }
    requires largest { largest.0 ≤ 4095 }
    ensures within { result ≤ long }
    ensures known { result ≡ known_by long (length old.now) (R.carried rule.now) }
    ensures costs { (x : ℕ) → x < largest.0 + result →
        slice_index_or costs.new x nil
        ≡ cost_pair (R.carried rule.now) (P.priced penalty.now) old.now (surplus_of x largest.0) }
{
    let ruins = largest.0;
    for level in 0..ruins + long {
        let end = surplus(Level(level), largest);
        let Some(pair) = cost(rule, penalty, old, end) else {
            return level - ruins;
        };
        // By place, as the weights are: over a zip with iter_mut() no invariant can name what is written.
        costs[level as usize] = pair;
    }
    long
}

// The pair of one level: every term is a weight times a cost, with no question and no test.
fn weigh(weights: &[u32], costs: &[Pair], dropped: u32, place: usize) -> Pair
    requires within { place + length weights.now ≤ length costs.now }
    requires whole { sum_below (length weights.now) (λ i. slice_index weights.now i) + dropped ≤ one }
    ensures { result ≡ pair_from weights.now costs.now dropped place }
{
    let mut lower: u64 = 0;
    let mut upper: u64 = 0;
    // Slices of one length, so that each turn tests one end.
    let costs = &costs[place..place + weights.len()];
    for (weight, cost) in weights.iter().zip(costs) {
        lower += *weight as u64 * cost.lower as u64;
        upper += *weight as u64 * cost.upper as u64;
    }
    let one = ONE as u64;
    Pair {
        lower: (lower / one) as u32,
        upper: ((upper + dropped as u64 * one + (one - 1)) / one) as u32,
    }
}

// Writes the pair of each level of a row. Not inlined, as gather_costs is not.
#[inline(never)]
fn fill_row(weights: &[u32], costs: &[Pair], dropped: u32, row: &mut [Pair])
    requires within { length row.old + length weights.now ≤ length costs.now + 1 }
    requires whole { sum_below (length weights.now) (λ i. slice_index weights.now i) + dropped ≤ one }
    ensures { row.new
        ≡ map (pair_from weights.now costs.now dropped) (range_with_len 0 (length row.old)) }
{
    for (level, pair) in row.iter_mut().enumerate() {
        *pair = weigh(weights, costs, dropped, level);
    }
}

// Works a period on the lists, unless no level would be known. Not inlined: what a caller does besides keeps its registers.
#[inline(never)]
fn work<L: ClaimLaw, R: CapitalRule, P: Penalty>(
    opened: Opened,
    board: &mut [Pair],
    spare: &mut [Pair],
    period: &Period<'_, L, R, P>,
    slots: &mut [u32; 4096],
    costs: &mut [Pair; 12288],
) -> Option<Worked>
    requires board { opened.long ≤ length board.old }
    requires spare { opened.long ≤ length spare.old }
    ensures fits { IfSome result (λ w. (w.known ≤ opened.long) × (w.dropped ≤ period.now.allowance.0)) }
    ensures answer { let added = meant L.weights R.carried P.priced period.now in
        result ≡ worked_of opened.long opened.known added }
    ensures board { let added = meant L.weights R.carried P.priced period.now in
        board.new ≡ where_known (known_after opened.long opened.known added)
        (board_after opened.long opened.known added board.old) board.old }
    ensures spare { let added = meant L.weights R.carried P.priced period.now in
        spare.new ≡ where_known (known_after opened.long opened.known added)
        (spare_after opened.long board.old spare.old) spare.old }
{
    let cut = gather_weights(period.law, period.allowance, slots);
    let largest = Amount(cut.amounts.saturating_sub(1));
    let old = &board[0..opened.known as usize];
    let known = gather_costs(
        period.rule,
        period.penalty,
        largest,
        old,
        opened.long,
        costs,
    );
    if known == 0 {
        return None;
    }
    let row = opened.long as usize;
    spare[0..row].copy_from_slice(&board[0..row]);
    let first = 4096 - cut.amounts as usize;
    fill_row(
        &slots[first..4096],
        costs,
        cut.dropped,
        &mut board[0..known as usize],
    );
    board[known as usize..row].fill(NIL);
    Some(Worked {
        known,
        dropped: cut.dropped,
    })
}

impl Run {
    // Adds a period before those already there, so that the last one added is first in time.
    pub fn advance<L: ClaimLaw, R: CapitalRule, P: Penalty>(
        &mut self,
        board: &mut [Pair],
        spare: &mut [Pair],
        period: &Period<'_, L, R, P>,
    ) -> Result<(), RunFault>
        ensures answer { let added = meant L.weights R.carried P.priced period.now in
            result ≡ advance_answer added (held_by self.old board.old spare.old) }
        ensures leaves { let added = meant L.weights R.carried P.priced period.now in
            held_by self.new board.new spare.new ≡ after (advances added) (held_by self.old board.old spare.old) }
    {
        // Made before the checks: clang was seen to compile a frame of this size wrongly where it begins behind an early return.
        let mut slots = [0u32; 4096];
        let mut costs = [NIL; 12288];
        let opened = self.opened.ok_or(RunFault::Unopened)?;
        let row = opened.long as usize;
        if board.len() < row || spare.len() < row {
            return Err(RunFault::ListShort);
        }
        if opened.periods >= 4095 {
            return Err(RunFault::PeriodsFull);
        }
        if period.allowance.0 > 1 << 20 {
            return Err(RunFault::AllowanceRange);
        }
        let worked = work(opened, board, spare, period, &mut slots, &mut costs).ok_or(
            RunFault::NoneKnown,
        )?;
        self.opened = Some(Opened {
            long: opened.long,
            known: worked.known,
            periods: opened.periods + 1,
            dropped: opened.dropped + worked.dropped,
        });
        Ok(())
    }
}
