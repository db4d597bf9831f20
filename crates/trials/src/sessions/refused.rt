// Sessions that refuse a record, or whose feed ends at a fault.
use super::{
    ABOVE_ONE, Bounds, HALF, LAW_A, NO_LAW, OPEN_A, PART_LAW, ROOM, Refused, TOO_MUCH, steps,
};
use crate::verdict::Verdicts;
use feed::Record;
use feed::Record::{
    Advance, Allowance, AnyRuin, Ask, Barrier, BelowDeficit, Claim, EndLaw, Floor, Open, Plain,
    Retain, Scaled, SingleSize,
};
use std::io;
use units::{Amount, Level, Weight};

const ABOVE_HALF: Weight = Weight((1 << 29) + 1);

const TWO_HALVES: &[Record] = &[Claim(Amount(0), HALF), Claim(Amount(2), HALF)];

// The records given, one that is refused after them, the number, and the offset of the record.
type Refusal = (&'static str, &'static [Record], Record, u16, usize);

// Feeds that end at a fault: the bytes behind it are not read.
fn stopped_feeds(verdicts: &mut Verdicts<'_>) -> io::Result<()> {
    for (trial, feed, told, whole) in [
        ("unknown kind", b"x".as_slice(), Refused(201, 0), 0),
        (
            "unknown kind, z behind",
            b"zxz".as_slice(),
            Refused(201, 1),
            1,
        ),
        (
            "kind in the other case",
            b"nT".as_slice(),
            Refused(201, 1),
            1,
        ),
        ("body cut short", b"u\x00".as_slice(), Refused(202, 0), 0),
        (
            "body cut short behind z",
            b"zw\x00\x00\x20".as_slice(),
            Refused(202, 1),
            1,
        ),
        (
            "kind alone in part law",
            b"w\x00\x00\x20\x00\x00\x00f".as_slice(),
            Refused(202, 7),
            1,
        ),
    ] {
        ROOM.try_feed(verdicts, trial, feed, &[told], whole)?;
    }
    Ok(())
}

fn feed_lengths(verdicts: &mut Verdicts<'_>) -> io::Result<()> {
    let most = vec![in verdicts.heap(); b'z'; 65_535]?;
    ROOM.try_feed(verdicts, "65535 bytes", most.as_slice(), &[], 65_535)?;
    let long = vec![in verdicts.heap(); b'z'; 65_536]?;
    let told = [Refused(203, 65_535)];
    ROOM.try_feed(verdicts, "65536 bytes", long.as_slice(), &told, 0)
}

const LISTS: &[Refusal] = &[
    ("w past 16 slots", NO_LAW, Claim(Amount(16), HALF), 101, 0),
    ("w above ONE", NO_LAW, Claim(Amount(0), ABOVE_ONE), 302, 0),
    (
        "w that passes ONE",
        PART_LAW,
        Claim(Amount(1), ABOVE_HALF),
        302,
        7,
    ),
    ("e below ONE", PART_LAW, EndLaw(1), 303, 7),
    (
        "w of amount 4096",
        NO_LAW,
        Claim(Amount(4096), HALF),
        304,
        0,
    ),
    (
        "w of the last amount again",
        PART_LAW,
        Claim(Amount(0), HALF),
        305,
        7,
    ),
    ("e of a count above", TWO_HALVES, EndLaw(3), 306, 14),
    ("e of a count below", TWO_HALVES, EndLaw(1), 306, 14),
];

const SIZES: &[(&str, Record, u16)] = &[
    ("s of size 0", SingleSize(Amount(0), HALF), 307),
    ("s of size 4096", SingleSize(Amount(4096), HALF), 307),
    ("s above ONE", SingleSize(Amount(2), ABOVE_ONE), 308),
    (
        "s of size 0 above ONE",
        SingleSize(Amount(0), ABOVE_ONE),
        307,
    ),
    ("c 0", Retain(Amount(0)), 309),
    ("c 4096", Retain(Amount(4096)), 309),
];

const TERMS: &[(&str, Record, u16)] = &[
    ("f 0", Floor(Level(0)), 401),
    ("f 8192", Floor(Level(8192)), 401),
    ("b 0", Barrier(Level(0)), 402),
    ("b 8192", Barrier(Level(8192)), 402),
    ("y 0", BelowDeficit(0), 403),
    ("y 4097", BelowDeficit(4097), 403),
    ("m 13", Scaled(13), 404),
    ("a above 2^20", Allowance(TOO_MUCH), 504),
];

const RUNS: &[Refusal] = &[
    ("o 1", NO_LAW, Open(1), 501, 0),
    ("o 8193", NO_LAW, Open(8193), 501, 0),
    ("o 9 on 8 pairs", NO_LAW, Open(9), 502, 0),
    ("u before o", NO_LAW, Ask(Level(0)), 503, 0),
    ("t before o", LAW_A, Advance, 503, 17),
    ("u of level 4 of 4", OPEN_A, Ask(Level(4)), 506, 20),
];

// The last period that leaves a level known, and one more.
fn no_level_known(verdicts: &mut Verdicts<'_>) -> io::Result<()> {
    ROOM.try_records(
        verdicts,
        "fourth t of 4 levels",
        OPEN_A,
        &[Advance, Advance, Advance, Advance, Ask(Level(0))],
        &[Refused(505, 23), Bounds(0, 805_306_368, 805_306_368, 3, 0)],
    )
}

// A barrier keeps every level known, so that only the count of periods stops the run.
fn most_periods(verdicts: &mut Verdicts<'_>) -> io::Result<()> {
    let mut then = vec![in verdicts.heap(); Advance; 4096]?;
    then.push(Ask(Level(1)))?;
    ROOM.try_records(
        verdicts,
        "t for a 4096th time",
        &[SingleSize(Amount(1), Weight(0)), Barrier(Level(1)), Open(2)],
        then.as_slice(),
        &[Refused(507, 4108), Bounds(1, 0, 0, 4095, 0)],
    )
}

// In part law only w, e and z are taken, whatever else would be wrong with the record.
fn not_in_part_law(verdicts: &mut Verdicts<'_>) -> io::Result<()> {
    for (trial, record) in [
        ("s in part law", SingleSize(Amount(2), HALF)),
        ("c in part law", Retain(Amount(1))),
        ("n in part law", Plain),
        ("f in part law", Floor(Level(1))),
        ("b in part law", Barrier(Level(1))),
        ("p in part law", AnyRuin),
        ("y in part law", BelowDeficit(1)),
        ("m in part law", Scaled(1)),
        ("a in part law", Allowance(Weight(1))),
        ("o in part law", Open(4)),
        ("t in part law", Advance),
        ("u in part law", Ask(Level(0))),
        (
            "s of size 0 above ONE in part law",
            SingleSize(Amount(0), ABOVE_ONE),
        ),
        ("f 0 in part law", Floor(Level(0))),
        ("o 1 in part law", Open(1)),
    ] {
        refuse(verdicts, trial, PART_LAW, record, 601, 7)?;
    }
    Ok(())
}

const NOT_OUTSIDE_PART_LAW: &[Refusal] = &[
    ("e with no law", NO_LAW, EndLaw(0), 601, 0),
    ("e with a whole law", LAW_A, EndLaw(2), 601, 17),
    ("t with no law", NO_LAW, Advance, 601, 0),
];

// Which check speaks where two fail at once.
const ORDERS: &[Refusal] = &[
    (
        "w of amount 4096 above ONE",
        NO_LAW,
        Claim(Amount(4096), ABOVE_ONE),
        304,
        0,
    ),
    (
        "w of the last amount that passes ONE",
        PART_LAW,
        Claim(Amount(0), ABOVE_HALF),
        305,
        7,
    ),
    (
        "w above ONE past 16 slots",
        NO_LAW,
        Claim(Amount(16), ABOVE_ONE),
        302,
        0,
    ),
    (
        "w that passes ONE past 16 slots",
        PART_LAW,
        Claim(Amount(16), ABOVE_HALF),
        302,
        7,
    ),
    ("e of another count below ONE", PART_LAW, EndLaw(2), 306, 7),
];

// One record that is refused, after some that are taken.
fn refuse(
    verdicts: &mut Verdicts<'_>,
    trial: &str,
    given: &[Record],
    record: Record,
    number: u16,
    offset: usize,
) -> io::Result<()> {
    ROOM.try_records(
        verdicts,
        trial,
        given,
        &[record],
        &[Refused(number, offset)],
    )
}

fn refuse_all(verdicts: &mut Verdicts<'_>, cases: &[Refusal]) -> io::Result<()> {
    for (trial, given, record, number, offset) in cases {
        refuse(verdicts, trial, given, *record, *number, *offset)?;
    }
    Ok(())
}

// The same after law A.
fn refuse_all_after_a(
    verdicts: &mut Verdicts<'_>,
    cases: &[(&str, Record, u16)],
) -> io::Result<()> {
    for (trial, record, number) in cases {
        refuse(verdicts, trial, LAW_A, *record, *number, 17)?;
    }
    Ok(())
}

pub fn all(verdicts: &mut Verdicts<'_>) -> io::Result<()> {
    stopped_feeds(verdicts)?;
    feed_lengths(verdicts)?;
    refuse_all(verdicts, LISTS)?;
    refuse_all_after_a(verdicts, SIZES)?;
    refuse_all_after_a(verdicts, TERMS)?;
    refuse_all(verdicts, RUNS)?;
    no_level_known(verdicts)?;
    most_periods(verdicts)?;
    not_in_part_law(verdicts)?;
    refuse_all(verdicts, NOT_OUTSIDE_PART_LAW)?;
    steps::full_logs(verdicts)?;
    refuse_all(verdicts, ORDERS)
}
