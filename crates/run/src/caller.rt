ghost use Rattle.std.specs.Prelude.{◌≡◌, [], ◌∷◌, length, IfOk, Ok};
ghost use Rattle.run.specs.Calls.{fresh_on, opens, advances, after, one_answer};
ghost use Rattle.run.specs.History.{ledger_of, Faithful};
ghost use Rattle.run.specs.Views.{meant};

use crate::{Answer, Pair, Period, Run, RunFault};
use capital::{CapitalRule, Penalty};
use claims::ClaimLaw;
use units::Level;

// A whole run of one period on the caller's lists: open, advance, ask, up to the first that is refused.
pub fn one_period<L: ClaimLaw, R: CapitalRule, P: Penalty>(
    long: u16,
    board: &mut [Pair],
    spare: &mut [Pair],
    period: &Period<'_, L, R, P>,
    level: Level,
) -> Result<Answer, RunFault>
    ensures answer { let added = meant L.weights R.carried P.priced period.now in
        let first = fresh_on board.old spare.old in
        result ≡ one_answer long added level.0 first }
    ensures board { let added = meant L.weights R.carried P.priced period.now in
        let first = fresh_on board.old spare.old in
        board.new ≡ (after (advances added) (after (opens long) first)).board }
    ensures spare { let added = meant L.weights R.carried P.priced period.now in
        let first = fresh_on board.old spare.old in
        spare.new ≡ (after (advances added) (after (opens long) first)).spare }
    ensures faithful { let added = meant L.weights R.carried P.priced period.now in
        let ledger = ledger_of (length board.old) (length spare.old) (advances added ∷ (opens long ∷ [])) in
        IfOk result (λ answer. Faithful ledger level.0 (Ok answer)) }
{
    let mut run = Run::fresh();
    run.open(long, board, spare)?;
    run.advance(board, spare, period)?;
    run.ask(board, spare, level)
}
