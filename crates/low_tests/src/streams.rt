// What is read of a stream whose bytes were taken in part.
use byte_streams::{PayloadMark, Streams};
use lamport_tag::Tag;
use std::test::Fail;

// The first five bytes of stream 7.
const CHUNK: &[u8] = b"STRM\x07\0\0\0\0\0\0\0\0\0abcde";

const CHUNK_TAG: Tag = Tag {
    sender: 0,
    clock: 1,
};

#[test]
fn a_front_of_a_chunk_is_read(rt: HostRuntime) -> Result<(), Fail> {
    byte_streams::laws::unsent_is_free();
    let mut streams = Streams::new(rt.alloc());
    assert_eq!(rt; streams.add_sent(0, 1, 1, CHUNK)?, PayloadMark::Counted);
    assert_eq!(rt; streams.read_bytes(0, 1, 7), Some(b"".as_slice()));
    assert_eq!(rt;
        streams.add_received(1, CHUNK_TAG, &CHUNK[..17])?,
        PayloadMark::Counted
    );
    assert_eq!(rt; streams.read_bytes(0, 1, 7), Some(b"abc".as_slice()));
    assert!(rt; streams.read_bytes(1, 0, 7).is_none());
    Ok(())
}
