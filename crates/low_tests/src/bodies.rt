// Instructions that are decoded, as the body of a module's one function.
use std::alloc::{AllocError, Global};
use std::test::Fail;
use wasm_decode::decode;

// A module of one function up to its code section.
const FRONT: &[u8] = b"\0asm\x01\0\0\0\x01\x04\x01`\0\0\x03\x02\x01\0\x0a";

// Instructions, and what they are decoded to.
const INSTRUCTIONS: &[(&[u8], &str)] = &[
    (b"", "[]"),
    (
        b"\0\x01\x0c\x05\x0d\x06\x0f\x10\x07\x11\x03\0",
        "[Unreachable, Nop, Br(5), BrIf(6), Return, CallFunc(7), CallIndirect(3)]",
    ),
    (
        b"\x1a\x1b \x01!\x02\x22\x03#\x04$\x05",
        "[DropTop, Select, LocalGet(1), LocalSet(2), LocalTee(3), GlobalGet(4), GlobalSet(5)]",
    ),
    (
        b"(\x02\x085\0\xff\xff\xff\xff\x0f",
        "[Load { opcode: 40, align: 2, offset: 8 }, Load { opcode: 53, align: 0, offset: 4294967295 }]",
    ),
    (
        b"6\x02\x08>\0\x01?\0@\0",
        "[Store { opcode: 54, align: 2, offset: 8 }, Store { opcode: 62, align: 0, offset: 1 }, MemorySize, MemoryGrow]",
    ),
    (
        b"A\x7fB~B\xff\0",
        "[ConstI32(4294967295), ConstI64(18446744073709551614), ConstI64(127)]",
    ),
    (
        b"C\0\0\x80?D\0\0\0\0\0\0\xf0?",
        "[ConstF32(1065353216), ConstF64(4607182418800017408)]",
    ),
    (
        b"E|\xbf\xc0\xc4",
        "[Op(69), Op(124), Op(191), Op(192), Op(196)]",
    ),
    (
        b"\x03}\x02|\x0b\x01\x0b",
        "[Loop(Some(F32), [Block(Some(F64), []), Nop])]",
    ),
    // An empty `else` and none are one tree.
    (b"\x04@\x0b", "[If(None, [], [])]"),
    (b"\x04@\x05\x0b", "[If(None, [], [])]"),
    (b"\x04~\x01\x05\x0f\x0b", "[If(Some(I64), [Nop], [Return])]"),
    // Bytes that begin no instruction.
    (b"\x06", "Malformed"),
    (b"\x12", "Malformed"),
    (b"\x1c", "Malformed"),
    (b"'\0\0", "Malformed"),
    (b"\xc5", "Malformed"),
    (b"\xff", "Malformed"),
    // The byte after them has to be 00.
    (b"?\x01", "Malformed"),
    (b"@\x80\0", "Malformed"),
    (b"\x11\0\x80\0", "Malformed"),
    // 05 ends a block, and an `if` a second time, and a function.
    (b"\x02@\x05\x0b", "Malformed"),
    (b"\x04@\x05\x05\x0b", "Malformed"),
    (b"\x05", "Malformed"),
    // A block that is not ended, and a function that is ended twice.
    (b"\x02@\x01", "Malformed"),
    (b"\x0b", "Malformed"),
    // A result that is no type, a number that is cut off, and unused bits that are no copies of the sign.
    (b"\x02{\x0b", "Malformed"),
    (b"\x0c", "Malformed"),
    (b"A\xff\xff\xff\xff\x08", "Malformed"),
    // 2 ^ 32 - 1 labels.
    (b"\x0e\xff\xff\xff\xff\x0f", "Malformed"),
];

// A number below 16,384 in two bytes of LEB128.
fn in_two_bytes(n: usize) -> [u8; 2] {
    [(n % 128) as u8 | 128, (n / 128 % 128) as u8]
}

// A module with one function, which has these instructions, of less than 16,000 bytes.
fn with_body(alloc: Global, instrs: &[u8]) -> Result<Vec<u8>, AllocError> {
    let mut bytes = FRONT.to_vec(alloc)?;
    // The section counts the function, its size, its locals and its end as well as the instructions.
    bytes.extend_from_slice(&in_two_bytes(instrs.len() + 5))?;
    bytes.push(1)?;
    bytes.extend_from_slice(&in_two_bytes(instrs.len() + 2))?;
    bytes.push(0)?;
    bytes.extend_from_slice(instrs)?;
    bytes.push(0x0b)?;
    Ok(bytes)
}

// What the function of such a module is decoded to.
fn body_text(alloc: Global, instrs: &[u8]) -> Result<String, AllocError> {
    let bytes = with_body(alloc, instrs)?;
    match decode(alloc, &bytes) {
        Ok(found) => match found.funcs.first() {
            Some(func) => format!(in alloc; "{:?}", func.body),
            None => String::from_str(alloc, "no function"),
        },
        Err(error) => format!(in alloc; "{error:?}"),
    }
}

#[test]
fn instructions_are_decoded(rt: HostRuntime) -> Result<(), Fail> {
    for &(instrs, want) in INSTRUCTIONS {
        let text = body_text(rt.alloc(), instrs)?;
        assert_eq!(rt; text.as_str(), want, "{instrs:?}");
    }
    Ok(())
}
