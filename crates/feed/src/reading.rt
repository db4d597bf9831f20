ghost use Rattle.std.specs.Prelude.{◌≡◌, [], ◌∷◌, ◌++◌, Some};
ghost use Rattle.feed.specs.Bytes.{record_bytes, two, four};
ghost use Rattle.feed.specs.FirstRecord.{first_record, outcome_of, WritesBack};
ghost use Rattle.feed.specs.Kinds.{body_length_lem};

use crate::fault::FeedFault;
use crate::kind::body_length;
use crate::record::Record;
use units::{Amount, Level, Weight};

// The first record of some bytes and the bytes behind it, if there are any bytes. Its kind fixes how many of them are its body.
pub fn read(bytes: &[u8]) -> Result<Option<(Record, &[u8])>, FeedFault>
    ensures first { outcome_of result ≡ first_record bytes.now }
    ensures writes_back { WritesBack (outcome_of result) bytes.now }
{
    let [kind, ..] = bytes else {
        return Ok(None);
    };
    let length = body_length(char::from(*kind)).ok_or(FeedFault::UnknownKind)?;
    let (record, rest) = match (length, bytes) {
        (0, [kind, rest @ ..]) => (bare(char::from(*kind)), rest),
        (1, [_, scale, rest @ ..]) => (Record::Scaled(*scale), rest),
        (2, [kind, hi, lo, rest @ ..]) => {
            let number = u16::from_be_bytes([*hi, *lo]);
            (numbered(char::from(*kind), number), rest)
        }
        (4, [_, a, b, c, d, rest @ ..]) => {
            let weight = Weight(u32::from_be_bytes([*a, *b, *c, *d]));
            (Record::Allowance(weight), rest)
        }
        (6, [kind, hi, lo, a, b, c, d, rest @ ..]) => {
            let amount = Amount(u16::from_be_bytes([*hi, *lo]));
            let weight = Weight(u32::from_be_bytes([*a, *b, *c, *d]));
            (weighed(char::from(*kind), amount, weight), rest)
        }
        _ => return Err(FeedFault::CutShort),
    };
    Ok(Some((record, rest)))
}

// The record of a kind that has no body. Here and below, the length of the body rules out the other letters.
fn bare(kind: char) -> Record
    requires { body_length_lem kind ≡ Some 0 }
    ensures { record_bytes result ≡ kind ∷ [] }
{
    match kind {
        'z' => Record::ScrapLaw,
        'n' => Record::Plain,
        'p' => Record::AnyRuin,
        't' => Record::Advance,
        _ => unreachable!(),
    }
}

// The record of a kind whose body is a number of two bytes.
fn numbered(kind: char, number: u16) -> Record
    requires { body_length_lem kind ≡ Some 2 }
    ensures { record_bytes result ≡ kind ∷ two number }
{
    match kind {
        'e' => Record::EndLaw(number),
        'c' => Record::Retain(Amount(number)),
        'f' => Record::Floor(Level(number)),
        'b' => Record::Barrier(Level(number)),
        'y' => Record::BelowDeficit(number),
        'o' => Record::Open(number),
        'u' => Record::Ask(Level(number)),
        _ => unreachable!(),
    }
}

// The record of a kind whose body is an amount and a weight.
fn weighed(kind: char, amount: Amount, weight: Weight) -> Record
    requires { body_length_lem kind ≡ Some 6 }
    ensures { record_bytes result ≡ kind ∷ (two amount.0 ++ four weight.0) }
{
    match kind {
        'w' => Record::Claim(amount, weight),
        's' => Record::SingleSize(amount, weight),
        _ => unreachable!(),
    }
}
