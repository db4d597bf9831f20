// Walks a feed from standard input, and writes what it found.
#![tactic(auto)]

ghost use Rattle.feed.specs.Walk.{walk_of};
ghost use Rattle.soundings.specs.Output.{output_of};
ghost use Rattle.soundings.specs.Walked.{Walked};
ghost use Rattle.std.specs.Prelude.{◌≡◌, IfOk, string_bytes};

use feed::{FeedFault, Reader, take_feed};
use report::{end_line, refusal_line};
use std::alloc::{AllocError, Global};
use std::io;

#[cfg(test)]
mod tests;

// Walks to the end of the feed: what it was stopped by, and where, or nothing.
fn walk(reader: &mut Reader<'_>) -> Option<(FeedFault, usize)>
    ensures { Walked (walk_of reader.old) result (walk_of reader.new) }
{
    let (fault, offset) = reader.find(Result::is_err)?.err()?;
    Some((fault, offset))
}

// All that the program writes: the fault, if one stopped the walk, and how many whole records there were.
fn output(
    heap: Global,
    stop: Option<(FeedFault, usize)>,
    count: usize,
) -> Result<String, AllocError>
    ensures { IfOk result (λ text. string_bytes text ≡ output_of stop count) }
{
    let Some((fault, offset)) = stop else {
        return end_line(heap, count);
    };
    let mut text = refusal_line(heap, u16::from(fault), offset)?;
    let end = end_line(heap, count)?;
    text.push_str(end.as_str())?;
    Ok(text)
}

fn main(rt: HostRuntime) -> io::Result<()> {
    let heap = rt.alloc();
    let bytes = take_feed(heap, rt.stdin())?;
    let mut reader = Reader::new(bytes.as_slice());
    let stop = walk(&mut reader);
    rt.print(output(heap, stop, reader.whole())?)
}
