ghost use Rattle.std.specs.Prelude.{◌≡◌, ◌∷◌, ◌++◌, drop, IfOk};
ghost use Rattle.feed.specs.Bytes.{record_bytes, two, four};
ghost use Rattle.feed.specs.FirstRecord.{first_record, whole};
ghost use Rattle.feed.specs.Written.{written_count, buffer_after};

use crate::fault::FeedFault;
use crate::record::Record;
use units::{Amount, Weight};

// Writes the record from the buffer's first byte on, and answers how many bytes it took. One that does not fit is not
// written at all.
pub fn write(record: Record, out: &mut [u8]) -> Result<usize, FeedFault>
    ensures count { result ≡ written_count (record_bytes «record») out.old }
    ensures buffer { out.new ≡ buffer_after (record_bytes «record») out.old }
    ensures reads_back { IfOk result (λ n. first_record out.new ≡ whole «record» (drop n out.old)) }
{
    match record {
        Record::Claim(amount, weight) => put(b'w', weighed(amount, weight), out),
        Record::EndLaw(count) => put(b'e', count.to_be_bytes(), out),
        Record::ScrapLaw => put(b'z', [], out),
        Record::SingleSize(size, weight) => put(b's', weighed(size, weight), out),
        Record::Retain(limit) => put(b'c', limit.0.to_be_bytes(), out),
        Record::Plain => put(b'n', [], out),
        Record::Floor(level) => put(b'f', level.0.to_be_bytes(), out),
        Record::Barrier(level) => put(b'b', level.0.to_be_bytes(), out),
        Record::AnyRuin => put(b'p', [], out),
        Record::BelowDeficit(deficit) => put(b'y', deficit.to_be_bytes(), out),
        Record::Scaled(scale) => put(b'm', [scale], out),
        Record::Allowance(weight) => put(b'a', weight.0.to_be_bytes(), out),
        Record::Open(length) => put(b'o', length.to_be_bytes(), out),
        Record::Advance => put(b't', [], out),
        Record::Ask(level) => put(b'u', level.0.to_be_bytes(), out),
    }
}

// The body of an amount and a weight.
fn weighed(amount: Amount, weight: Weight) -> [u8; 6]
    ensures { result ≡ two amount.0 ++ four weight.0 }
{
    let [hi, lo] = amount.0.to_be_bytes();
    let [a, b, c, d] = weight.0.to_be_bytes();
    [hi, lo, a, b, c, d]
}

// Writes the letter of a kind and the body, or nothing where they do not fit.
fn put<const N: usize>(kind: u8, body: [u8; N], out: &mut [u8]) -> Result<usize, FeedFault>
    ensures count { result ≡ written_count (kind ∷ body.entry) out.old }
    ensures buffer { out.new ≡ buffer_after (kind ∷ body.entry) out.old }
{
    if out.len() <= N {
        return Err(FeedFault::BufferShort);
    }
    out[0] = kind;
    out[1..=N].copy_from_slice(&body);
    Ok(1 + N)
}
