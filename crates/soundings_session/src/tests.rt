use crate::*;
use std::test::Fail;

// The same test as in soundings: both programs read by `take_feed`.
#[test]
fn reads_one_byte_past_the_longest_feed_and_no_more(rt: HostRuntime) -> Result<(), Fail> {
    for (given, read) in [(0, 0), (65_535, 65_535), (65_536, 65_536), (65_537, 65_536)] {
        let input = vec![in rt.alloc(); b'z'; given]?;
        assert_eq!(rt; take_feed(rt.alloc(), input.as_slice())?.len(), read);
    }
    Ok(())
}

// The book of the README at its two floors, and a single size on the longest row.
#[test]
fn tells_the_worked_examples(rt: HostRuntime) -> Result<(), Fail> {
    for (feed, told) in [
        (
            b"w\x00\x00\x29\xb9\x27\x00w\x00\x01\x0b\xeb\xc2\x00w\x00\x04\x0a\x5b\x17\x00e\x00\x03f\x00\x01o\x00\x40ttttttttttttu\x00\x00u\x00\x05u\x00\x0a".as_slice(),
            "u 0 786116469 786116473 12 0\nu 5 226610572 226610581 12 0\nu 10 35037534 35037543 12 0\nend 21\n",
        ),
        (
            b"w\x00\x00\x29\xb9\x27\x00w\x00\x01\x0b\xeb\xc2\x00w\x00\x04\x0a\x5b\x17\x00e\x00\x03f\x00\x03o\x00\x40ttttttttttttu\x00\x00u\x00\x05u\x00\x0a".as_slice(),
            "u 0 600890950 600890956 12 0\nu 5 160784243 160784252 12 0\nu 10 25238182 25238192 12 0\nend 21\n",
        ),
        (
            b"s\x00\x05\x20\x00\x00\x00m\x03o\x20\x00tu\x00\x00u\x1f\xffu\x1f\xfe".as_slice(),
            "u 0 268435456 268435456 1 0\nno 506 16\nu 8190 0 0 1 0\nend 7\n",
        ),
    ] {
        assert_eq!(rt; transcript(rt.alloc(), feed)?.as_str(), told);
    }
    Ok(())
}
