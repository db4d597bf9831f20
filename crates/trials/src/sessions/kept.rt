// Sessions whose records build on those before: laws, terms, and the bounds that they lead to.
use super::{
    ABOVE_ONE, Bounds, Case, HALF, LAW_A, NO_LAW, OPEN_A, PART_LAW, ROOM, Refused, TOO_MUCH, Told,
    try_all,
};
use crate::verdict::Verdicts;
use feed::Record;
use feed::Record::{
    Advance, Allowance, AnyRuin, Ask, Barrier, BelowDeficit, Claim, EndLaw, Floor, Open, Plain,
    Retain, Scaled, ScrapLaw, SingleSize,
};
use std::io;
use units::{Amount, Level, ONE, Weight};

const FLOOR_1: Record = Floor(Level(1));

const FLOOR_3: Record = Floor(Level(3));

const BARRIER_2: Record = Barrier(Level(2));

const LAW_B: &[Record] = &[
    Claim(Amount(0), Weight(ONE - 1)),
    Claim(Amount(2), Weight(1)),
    EndLaw(2),
];

// Two periods, and their bounds at level 0.
const TWO_PERIODS: &[Record] = &[Open(5), Advance, Advance, Ask(Level(0))];

// A refused w leaves the whole law that stood before.
fn former_laws(verdicts: &mut Verdicts<'_>) -> io::Result<()> {
    for (trial, claim, number) in [
        ("law kept after w 101", Claim(Amount(16), HALF), 101),
        ("law kept after w 302", Claim(Amount(0), ABOVE_ONE), 302),
        ("law kept after w 304", Claim(Amount(4096), HALF), 304),
    ] {
        ROOM.try_records(
            verdicts,
            trial,
            OPEN_A,
            &[claim, Advance, Ask(Level(0))],
            &[
                Refused(number, 20),
                Bounds(0, 536_870_912, 536_870_912, 1, 0),
            ],
        )?;
    }
    Ok(())
}

// A w after a whole law begins a new one, with nothing given. What stood in the slots of a former law does not come back
// where an amount is left out.
const NEW_LAWS: &[Case] = &[
    (
        "w after a whole law begins a new one",
        OPEN_A,
        &[
            Claim(Amount(0), Weight(ONE)),
            EndLaw(1),
            Advance,
            Ask(Level(0)),
        ],
        &[Bounds(0, 0, 0, 1, 0)],
    ),
    (
        "t with the new law in part",
        OPEN_A,
        &[Claim(Amount(0), HALF), Advance],
        &[Refused(601, 27)],
    ),
    (
        "amount left out where a former law had ONE",
        &[
            Claim(Amount(0), Weight(0)),
            Claim(Amount(1), Weight(ONE)),
            EndLaw(2),
        ],
        &[
            Claim(Amount(2), Weight(ONE)),
            EndLaw(1),
            BelowDeficit(1),
            Open(4),
            Advance,
            Ask(Level(0)),
        ],
        &[Bounds(0, 0, 0, 1, 0)],
    ),
];

const COUNTS: &[Case] = &[
    (
        "e counts no refused w",
        &[
            Claim(Amount(0), HALF),
            Claim(Amount(0), HALF),
            Claim(Amount(2), HALF),
        ],
        &[EndLaw(3), EndLaw(2), Open(4), Advance, Ask(Level(0))],
        &[
            Refused(305, 7),
            Refused(306, 21),
            Bounds(0, 536_870_912, 536_870_912, 1, 0),
        ],
    ),
    (
        "e counts no w of a former law",
        LAW_A,
        &[Claim(Amount(0), Weight(ONE)), EndLaw(3), EndLaw(1)],
        &[Refused(306, 24)],
    ),
    (
        "e counts no w that was scrapped",
        PART_LAW,
        &[
            ScrapLaw,
            Claim(Amount(0), Weight(ONE)),
            EndLaw(2),
            EndLaw(1),
        ],
        &[Refused(306, 15)],
    ),
];

const SCRAPS: &[Case] = &[
    (
        "z with no law",
        NO_LAW,
        &[ScrapLaw, Advance],
        &[Refused(601, 1)],
    ),
    (
        "z in part law",
        PART_LAW,
        &[
            ScrapLaw,
            EndLaw(1),
            Claim(Amount(0), Weight(ONE)),
            EndLaw(1),
        ],
        &[Refused(601, 8)],
    ),
    (
        "z with a whole law",
        OPEN_A,
        &[ScrapLaw, Advance, Ask(Level(0))],
        &[Refused(601, 21), Bounds(0, 0, 0, 0, 0)],
    ),
    (
        "z after s",
        &[SingleSize(Amount(2), HALF), Open(4)],
        &[ScrapLaw, Advance],
        &[Refused(601, 11)],
    ),
];

// Records that need no law, and stand once there is one.
const WITH_NO_LAW: &[Case] = &[
    (
        "o and u with no law",
        NO_LAW,
        &[Open(4), Ask(Level(3)), Ask(Level(4))],
        &[Bounds(3, 0, 0, 0, 0), Refused(506, 6)],
    ),
    (
        "terms with no law",
        &[
            Retain(Amount(4095)),
            Barrier(Level(8191)),
            Plain,
            BelowDeficit(4096),
        ],
        &[
            Scaled(12),
            AnyRuin,
            Allowance(Weight(1 << 20)),
            Floor(Level(8191)),
        ],
        &[],
    ),
];

// Rules that follow one another before two periods of law A: the latest stands.
fn latest_rules(verdicts: &mut Verdicts<'_>) -> io::Result<()> {
    for (trial, first, latest, bound) in [
        ("n after f 3", FLOOR_3, Plain, 805_306_368),
        ("f 1 after f 3", FLOOR_3, FLOOR_1, 805_306_368),
        ("f 3 after f 1", FLOOR_1, FLOOR_3, 536_870_912),
        ("b 2 after f 3", FLOOR_3, BARRIER_2, 805_306_368),
        ("f 3 after b 2", BARRIER_2, FLOOR_3, 536_870_912),
        ("f 3 after n", Plain, FLOOR_3, 536_870_912),
    ] {
        ROOM.try_records(
            verdicts,
            trial,
            &[first, latest, SingleSize(Amount(2), HALF)],
            TWO_PERIODS,
            &[Bounds(0, bound, bound, 2, 0)],
        )?;
    }
    Ok(())
}

// A refused record leaves what stood before.
const KEPT_TERMS: &[Case] = &[
    (
        "f 3 before a refused f",
        &[FLOOR_3, Floor(Level(0)), SingleSize(Amount(2), HALF)],
        TWO_PERIODS,
        &[Refused(401, 3), Bounds(0, 536_870_912, 536_870_912, 2, 0)],
    ),
    (
        "a 1 before a refused a",
        LAW_B,
        &[
            Allowance(Weight(1)),
            Allowance(TOO_MUCH),
            Open(4),
            Advance,
            Ask(Level(0)),
        ],
        &[Refused(504, 22), Bounds(0, 0, 1, 1, 1)],
    ),
    (
        "law A before a refused s",
        OPEN_A,
        &[SingleSize(Amount(0), HALF), Advance, Ask(Level(0))],
        &[Refused(307, 20), Bounds(0, 536_870_912, 536_870_912, 1, 0)],
    ),
];

const BARRIERS: &[Case] = &[
    (
        "one plain t, one of b 2",
        OPEN_A,
        &[Advance, BARRIER_2, Advance, Ask(Level(3))],
        &[Bounds(3, 0, 0, 2, 0)],
    ),
    (
        "one t of b 2, one plain by n",
        OPEN_A,
        &[BARRIER_2, Advance, Plain, Advance, Ask(Level(3))],
        &[Refused(506, 26)],
    ),
    (
        "f 5 of 5 levels",
        LAW_A,
        &[
            Floor(Level(5)),
            Open(5),
            Advance,
            Floor(Level(4)),
            Advance,
            Ask(Level(3)),
        ],
        &[Refused(505, 23), Bounds(3, 0, 0, 1, 0)],
    ),
];

// The same of penalties.
fn latest_penalties(verdicts: &mut Verdicts<'_>) -> io::Result<()> {
    for (trial, first, latest, bound) in [
        ("y 1 after p", AnyRuin, BelowDeficit(1), 268_435_456),
        ("p after y 1", BelowDeficit(1), AnyRuin, 805_306_368),
        ("y 1 after m 0", Scaled(0), BelowDeficit(1), 268_435_456),
        ("m 0 after y 1", BelowDeficit(1), Scaled(0), 536_870_912),
    ] {
        ROOM.try_records(
            verdicts,
            trial,
            &[SingleSize(Amount(2), HALF), first, latest],
            TWO_PERIODS,
            &[Bounds(0, bound, bound, 2, 0)],
        )?;
    }
    Ok(())
}

const PENALTIES: &[Case] = &[(
    "size 5 at a half by m 3",
    &[SingleSize(Amount(5), HALF), Scaled(3)],
    &[Open(4), Advance, Ask(Level(0))],
    &[Bounds(0, 268_435_456, 268_435_456, 1, 0)],
)];

const ALLOWANCES: &[Case] = &[
    (
        "law B with a 0",
        LAW_B,
        &[Open(4), Advance, Ask(Level(0))],
        &[Bounds(0, 1, 1, 1, 0)],
    ),
    (
        "law B with a 1",
        LAW_B,
        &[Allowance(Weight(1)), Open(4), Advance, Ask(Level(0))],
        &[Bounds(0, 0, 1, 1, 1)],
    ),
    (
        "two periods of law B",
        LAW_B,
        &[Open(4), Advance, Advance, Ask(Level(0))],
        &[Bounds(0, 1, 2, 2, 0)],
    ),
];

const ASKS_OF_TWO_PERIODS: &[Record] = &[Open(4), Advance, Advance, Ask(Level(0)), Ask(Level(1))];

const BOUNDS_OF_TWO_PERIODS: &[Told] = &[
    Bounds(0, 805_306_368, 805_306_368, 2, 0),
    Bounds(1, 536_870_912, 536_870_912, 2, 0),
];

// The same book by other records.
const OTHER_WAYS: &[Case] = &[
    (
        "two periods of law A by w",
        LAW_A,
        ASKS_OF_TWO_PERIODS,
        BOUNDS_OF_TWO_PERIODS,
    ),
    (
        "two periods of law A by s",
        &[SingleSize(Amount(2), HALF)],
        ASKS_OF_TWO_PERIODS,
        BOUNDS_OF_TWO_PERIODS,
    ),
    (
        "s after a law by w",
        LAW_A,
        &[
            SingleSize(Amount(2), Weight(0)),
            Open(4),
            Advance,
            Ask(Level(0)),
        ],
        &[Bounds(0, 0, 0, 1, 0)],
    ),
];

const FIGURES: &[Case] = &[
    (
        "two periods of law A with f 1",
        LAW_A,
        &[FLOOR_1, Open(5), Advance, Advance, Ask(Level(0))],
        &[Bounds(0, 805_306_368, 805_306_368, 2, 0)],
    ),
    (
        "two periods of law A with f 3",
        LAW_A,
        &[FLOOR_3, Open(5), Advance, Advance, Ask(Level(0))],
        &[Bounds(0, 536_870_912, 536_870_912, 2, 0)],
    ),
    (
        "law A retained at 1",
        OPEN_A,
        &[Retain(Amount(1)), Advance, Ask(Level(1))],
        &[Bounds(1, 0, 0, 1, 0)],
    ),
];

pub fn all(verdicts: &mut Verdicts<'_>) -> io::Result<()> {
    former_laws(verdicts)?;
    try_all(verdicts, NEW_LAWS)?;
    try_all(verdicts, COUNTS)?;
    try_all(verdicts, SCRAPS)?;
    try_all(verdicts, WITH_NO_LAW)?;
    latest_rules(verdicts)?;
    try_all(verdicts, BARRIERS)?;
    latest_penalties(verdicts)?;
    try_all(verdicts, PENALTIES)?;
    try_all(verdicts, KEPT_TERMS)?;
    try_all(verdicts, ALLOWANCES)?;
    try_all(verdicts, OTHER_WAYS)?;
    try_all(verdicts, FIGURES)
}
