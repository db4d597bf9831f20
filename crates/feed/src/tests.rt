use crate::*;
use std::alloc::Global;
use std::process::Abort;
use std::test::Fail;
use units::Level;

// Reads a feed until it ends and writes each record again.
fn rewritten(
    rt: &impl Abort,
    heap: Global,
    feed: &[u8],
) -> Result<(Vec<u8>, usize, Option<Found>), Fail> {
    let mut reader = Reader::new(feed);
    let mut written = Vec::new(heap);
    loop {
        let found = reader.next_record();
        let Some(Ok((record, _))) = found else {
            return Ok((written, reader.whole(), found));
        };
        let mut buffer = [0u8; 7];
        let count = write(record, &mut buffer)?;
        assert!(rt; count <= 7);
        written.extend_from_slice(&buffer[0..count])?;
    }
}

#[test]
fn feeds(rt: HostRuntime) -> Result<(), Fail> {
    let cases: [(&[u8], usize, Option<Found>); 6] = [
        (b"", 0, None),
        (
            b"w\x00\x02\x20\x00\x00\x01e\x01\x02zs\x0f\xff\x00\x01\x02\x03c\x00\x01",
            5,
            None,
        ),
        (
            b"nf\x12\x34b\x1f\xffpy\x10\x00m\x0ca\x00\x10\x00\x00o\x20\x00tu\x01\x00",
            10,
            None,
        ),
        (b"tu\x01", 1, Some(Err((FeedFault::CutShort, 1)))),
        (
            b"zw\x00\x02\x20\x00\x00",
            1,
            Some(Err((FeedFault::CutShort, 1))),
        ),
        (b"e\x00\x02xz", 1, Some(Err((FeedFault::UnknownKind, 3)))),
    ];
    for (feed, whole, last) in cases {
        let (written, count, found) = rewritten(&rt, rt.alloc(), feed)?;
        assert_eq!(rt; (count, found), (whole, last));
        let end = match last {
            Some(Err((_, offset))) => offset,
            _ => feed.len(),
        };
        assert!(rt; end <= feed.len());
        assert_eq!(rt; written.as_slice(), &feed[0..end]);
    }
    Ok(())
}

#[test]
fn limits(rt: HostRuntime) -> Result<(), Fail> {
    let longest = vec![in rt.alloc(); 122u8; 65_535]?;
    let (_, whole, last) = rewritten(&rt, rt.alloc(), &longest)?;
    assert_eq!(rt; (whole, last), (65_535, None));
    let longer = vec![in rt.alloc(); 122u8; 65_536]?;
    let mut reader = Reader::new(&longer);
    assert_eq!(rt;
        reader.next_record(),
        Some(Err((FeedFault::TooLong, 65_535)))
    );
    assert_eq!(rt; reader.next_record(), None);
    let mut buffer = [0u8; 3];
    assert_eq!(rt;
        write(Record::Ask(Level(258)), &mut buffer[0..2]),
        Err(FeedFault::BufferShort)
    );
    assert_eq!(rt; buffer, [0, 0, 0]);
    assert_eq!(rt; write(Record::Ask(Level(258)), &mut buffer), Ok(3));
    assert_eq!(rt; buffer, [117, 1, 2]);
    Ok(())
}

#[test]
fn a_reader_is_an_iterator(rt: HostRuntime) {
    let mut reader = Reader::new(b"zt?z");
    let mut last = None;
    for found in &mut reader {
        last = Some(found);
    }
    assert_eq!(rt; last, Some(Err((FeedFault::UnknownKind, 2))));
    assert_eq!(rt; reader.whole(), 2);
}

#[test]
fn takes_the_bytes_of_a_feed(rt: HostRuntime) -> Result<(), Fail> {
    let taken = take_feed(rt.alloc(), b"zt".as_slice())?;
    assert_eq!(rt; taken.as_slice(), b"zt".as_slice());
    Ok(())
}
