// Spellings of numbers from the WebAssembly standard and from LEB128's usual examples.
use fri_bytes::Cursor;

// Bytes, and the number that they spell: without a sign, with one in 32 bits, and with one in 64.
const SPELLINGS: &[(&[u8], Option<u32>, Option<i32>, Option<i64>)] = &[
    (b"\x00", Some(0), Some(0), Some(0)),
    (b"\x7f", Some(127), Some(-1), Some(-1)),
    (b"\x80\x01", Some(128), Some(128), Some(128)),
    (b"\x83\x00", Some(3), Some(3), Some(3)),
    (b"\xe5\x8e\x26", Some(624_485), Some(624_485), Some(624_485)),
    (b"\x80\x80\x80\x80\x00", Some(0), Some(0), Some(0)),
    (
        b"\xff\xff\xff\xff\x0f",
        Some(u32::MAX),
        None,
        Some(4_294_967_295),
    ),
    (b"\xff\xff\xff\xff\x10", None, None, Some(4_563_402_751)),
    (b"\x80\x80\x80\x80\x80\x00", None, None, Some(0)),
    (b"\x80\x80\x80\x80", None, None, None),
    (b"\xe5\x8e", None, None, None),
    (b"\x80", None, None, None),
    (b"", None, None, None),
    (b"\x3f", Some(63), Some(63), Some(63)),
    (b"\x40", Some(64), Some(-64), Some(-64)),
    (b"\xc0\x00", Some(64), Some(64), Some(64)),
    (
        b"\xc0\xbb\x78",
        Some(1_973_696),
        Some(-123_456),
        Some(-123_456),
    ),
    (
        b"\x80\x80\x80\x80\x78",
        None,
        Some(i32::MIN),
        Some(-2_147_483_648),
    ),
    (
        b"\xff\xff\xff\xff\x07",
        Some(2_147_483_647),
        Some(i32::MAX),
        Some(2_147_483_647),
    ),
    (b"\xff\xff\xff\xff\x7f", None, Some(-1), Some(-1)),
    (
        b"\xff\xff\xff\xff\x08",
        Some(2_415_919_103),
        None,
        Some(2_415_919_103),
    ),
    (b"\x80\x80\x80\x80\x70", None, None, Some(-4_294_967_296)),
    (b"\xff\xff\xff\xff\xff\x7f", None, None, Some(-1)),
    (b"\xc0\xbb", None, None, None),
    (b"\x7e", Some(126), Some(-2), Some(-2)),
    (b"\xfe\x7f", Some(16382), Some(-2), Some(-2)),
    (b"\xfe\xff\x7f", Some(2_097_150), Some(-2), Some(-2)),
    (
        b"\x80\x80\x80\x80\x80\x80\x80\x80\x80\x7f",
        None,
        None,
        Some(i64::MIN),
    ),
    (
        b"\xff\xff\xff\xff\xff\xff\xff\xff\xff\x00",
        None,
        None,
        Some(i64::MAX),
    ),
    (
        b"\x80\x80\x80\x80\x80\x80\x80\x80\x80\x00",
        None,
        None,
        Some(0),
    ),
    (
        b"\xff\xff\xff\xff\xff\xff\xff\xff\xff\x7f",
        None,
        None,
        Some(-1),
    ),
    (
        b"\x80\x80\x80\x80\x80\x80\x80\x80\x80\x01",
        None,
        None,
        None,
    ),
    (
        b"\x80\x80\x80\x80\x80\x80\x80\x80\x80\x7e",
        None,
        None,
        None,
    ),
    (
        b"\x80\x80\x80\x80\x80\x80\x80\x80\x80\x80\x00",
        None,
        None,
        None,
    ),
    (b"\x80\x80\x80\x80\x80\x80\x80\x80\x80", None, None, None),
];

#[test]
fn numbers_are_read_in_leb128(rt: HostRuntime) {
    for &(bytes, unsigned, signed, wide) in SPELLINGS {
        assert_eq!(rt; Cursor::new(bytes).leb_u32(), unsigned, "of {bytes:?}");
        assert_eq!(rt; Cursor::new(bytes).leb_s32(), signed, "of {bytes:?}");
        assert_eq!(rt; Cursor::new(bytes).leb_s64(), wide, "of {bytes:?}");
    }
}
