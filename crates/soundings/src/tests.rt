use crate::*;
use std::test::Fail;

#[test]
fn reads_one_byte_past_the_longest_feed_and_no_more(rt: HostRuntime) -> Result<(), Fail> {
    for (given, read) in [(0, 0), (65_535, 65_535), (65_536, 65_536), (65_537, 65_536)] {
        let input = vec![in rt.alloc(); b'z'; given]?;
        assert_eq!(rt; take_feed(rt.alloc(), input.as_slice())?.len(), read);
    }
    Ok(())
}

#[test]
fn tells_the_fault_that_stops_a_feed_and_the_whole_records_before_it(
    rt: HostRuntime,
) -> Result<(), Fail> {
    for (feed, written) in [
        (b"".as_slice(), "end 0\n"),
        (b"zt".as_slice(), "end 2\n"),
        (b"z?".as_slice(), "no 201 1\nend 1\n"),
        (b"zzu\x00".as_slice(), "no 202 2\nend 2\n"),
    ] {
        let mut reader = Reader::new(feed);
        let stop = walk(&mut reader);
        assert_eq!(rt; output(rt.alloc(), stop, reader.whole())?.as_str(), written);
    }
    Ok(())
}
