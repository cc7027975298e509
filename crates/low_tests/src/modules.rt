// Modules that are decoded, and bytes that spell none.
use std::alloc::{AllocError, Global};
use std::test::Fail;
use wasm_decode::{DecodeError, decode};

const SMALLEST: &str =
    "Module { types: [FuncType { params: [], results: [I64] }, FuncType { params: [I64], results: [] }, FuncType { params: [], results: [] }], imports: [Import { module: [108, 105, 98, 108, 111, 103], name: [110, 111, 119], desc: Func(0) }, Import { module: [108, 105, 98, 108, 111, 103], name: [110, 111, 116, 101], desc: Func(1) }], funcs: [Func { type_index: 2, locals: [], body: [CallFunc(0), CallFunc(1)] }], tables: [], mems: [], globals: [], exports: [Export { name: [95, 115, 116, 97, 114, 116], desc: Func(2) }], start: None, elems: [], segments: [] }";

const EVERY_SECTION: &str =
    "Module { types: [FuncType { params: [], results: [] }, FuncType { params: [I32, I64], results: [F32] }], imports: [Import { module: [109], name: [102], desc: Func(0) }, Import { module: [109], name: [116], desc: Table(Limits { min: 1, max: None }) }, Import { module: [109], name: [101], desc: Memory(Limits { min: 1, max: Some(2) }) }, Import { module: [109], name: [103], desc: Global(I64, true) }], funcs: [Func { type_index: 0, locals: [(2, F64)], body: [Block(None, [Nop]), If(Some(I32), [Unreachable], []), If(None, [Nop], [Return]), BrTable([1, 0], 2), ConstF32(2139062143)] }], tables: [Limits { min: 2, max: Some(3) }], mems: [Limits { min: 1, max: None }], globals: [GlobalDef { kind: I32, mutable: false, init: [ConstI32(42)] }], exports: [Export { name: [97], desc: Global(0) }], start: Some(1), elems: [Elem { table: 0, offset: [ConstI32(0)], funcs: [1] }], segments: [Segment { memory: 0, offset: [ConstI32(4)], bytes: [104, 105] }] }";

// Spellings of modules, and what they are decoded to.
const MODULES: &[(&[u8], &str)] = &[
    // A function that calls two imports.
    (
        b"\0asm\x01\0\0\0\x01\x0c\x03`\0\x01~`\x01~\0`\0\0\x02\x1c\x02\x06liblog\x03now\0\0\x06liblog\x04note\0\x01\x03\x02\x01\x02\x07\x0a\x01\x06_start\0\x02\x0a\x08\x01\x06\0\x10\0\x10\x01\x0b",
        SMALLEST,
    ),
    // Custom sections after the header, between two others and at the end.
    (
        b"\0asm\x01\0\0\0\0\x05\x04name\0\x05\x04name\x01\x0c\x03`\0\x01~`\x01~\0`\0\0\x02\x1c\x02\x06liblog\x03now\0\0\x06liblog\x04note\0\x01\x03\x02\x01\x02\x07\x0a\x01\x06_start\0\x02\0\x05\x04name\x0a\x08\x01\x06\0\x10\0\x10\x01\x0b\0\x05\x04name",
        SMALLEST,
    ),
    // The size of the types in two bytes.
    (
        b"\0asm\x01\0\0\0\x01\x8c\0\x03`\0\x01~`\x01~\0`\0\0\x02\x1c\x02\x06liblog\x03now\0\0\x06liblog\x04note\0\x01\x03\x02\x01\x02\x07\x0a\x01\x06_start\0\x02\x0a\x08\x01\x06\0\x10\0\x10\x01\x0b",
        SMALLEST,
    ),
    // The count of the locals in five bytes.
    (
        b"\0asm\x01\0\0\0\x01\x0c\x03`\0\x01~`\x01~\0`\0\0\x02\x1c\x02\x06liblog\x03now\0\0\x06liblog\x04note\0\x01\x03\x02\x01\x02\x07\x0a\x01\x06_start\0\x02\x0a\x0c\x01\x0a\x80\x80\x80\x80\0\x10\0\x10\x01\x0b",
        SMALLEST,
    ),
    // Empty sections.
    (
        b"\0asm\x01\0\0\0\x01\x0c\x03`\0\x01~`\x01~\0`\0\0\x02\x1c\x02\x06liblog\x03now\0\0\x06liblog\x04note\0\x01\x03\x02\x01\x02\x04\x01\0\x05\x01\0\x07\x0a\x01\x06_start\0\x02\x0a\x08\x01\x06\0\x10\0\x10\x01\x0b",
        SMALLEST,
    ),
    // Every section: a custom one `name`; the types [] -> [] and [i32, i64] -> [f32]; a function, a table, a
    // memory and a global from `m`; one function, table, memory and global; the global as `a`; the start
    // function; an element segment; the function's code; a data segment; and a custom section without a
    // name. The code has two locals, a block, an `if` with one branch and one with two, and a branch by a
    // table.
    (
        b"\0asm\x01\0\0\0\0\x05\x04name\x01\x0a\x02`\0\0`\x02\x7f~\x01}\x02\x1e\x04\x01m\x01f\0\0\x01m\x01t\x01p\0\x01\x01m\x01e\x02\x01\x01\x02\x01m\x01g\x03~\x01\x03\x02\x01\0\x04\x05\x01p\x01\x02\x03\x05\x03\x01\0\x01\x06\x06\x01\x7f\0A*\x0b\x07\x05\x01\x01a\x03\0\x08\x01\x01\x09\x07\x01\0A\0\x0b\x01\x01\x0a\x1e\x01\x1c\x01\x02|\x02@\x01\x0b\x04\x7f\0\x0b\x04@\x01\x05\x0f\x0b\x0e\x02\x01\0\x02C\x7f\x7f\x7f\x7f\x0b\x0b\x08\x01\0A\x04\x0b\x02hi\0\x01\0",
        EVERY_SECTION,
    ),
];

// Bytes that make no module after the header.
const MALFORMED: &[&[u8]] = &[
    // A section twice, two in the wrong order, one that came after version 1.0, and one with no known id.
    b"\x01\x01\0\x01\x01\0",
    b"\x05\x01\0\x04\x01\0",
    b"\x0c\x01\0",
    b"\x0d\x01\0",
    // A size that is too small, one that is too great by one, and one that is far too great.
    b"\x01\x03\x01`\0\0",
    b"\x01\x05\x01`\0\0",
    b"\x01\xff\xff\xff\xff\x0f",
    // A spare byte in a section, in the start section, and in a function.
    b"\x01\x05\x01`\0\0\0",
    b"\x08\x02\0\0",
    b"\x03\x02\x01\0\x0a\x05\x01\x03\0\x0b\x0b",
    // Counts with nothing after them.
    b"\x01\x05\xff\xff\xff\xff\x0f",
    b"\x02\x05\xff\xff\xff\xff\x0f",
    b"\x03\x05\xff\xff\xff\xff\x0f",
    b"\x0b\x05\xff\xff\xff\xff\x0f",
    // A function without a body, a body without a function, and fewer bodies than functions.
    b"\x03\x02\x01\0",
    b"\x0a\x04\x01\x02\0\x0b",
    b"\x03\x03\x02\0\0\x0a\x04\x01\x02\0\x0b",
    // 2 ^ 32 locals, and a local of no type.
    b"\x03\x02\x01\0\x0a\x0c\x01\x0a\x02\xff\xff\xff\xff\x0f\x7f\x01\x7f\x0b",
    b"\x03\x02\x01\0\x0a\x06\x01\x04\x01\0`\x0b",
    // A custom section without a name, and names that are no UTF-8 or are cut off.
    b"\0\0",
    b"\0\x02\x01\xff",
    b"\0\x02\x02a",
    b"\x02\x07\x01\x01\xff\x01a\0\0",
    b"\x02\x07\x01\x01a\x01\xc0\0\0",
    b"\x07\x06\x01\x02\xc3(\0\0",
    // Tags and flags that there are not.
    b"\x01\x04\x01a\0\0",
    b"\x04\x04\x01o\0\x01",
    b"\x05\x03\x01\x02\0",
    b"\x06\x06\x01\x7f\x02A\0\x0b",
    b"\x02\x07\x01\x01a\x01a\x04\0",
    b"\x07\x05\x01\x01a\x04\0",
    // An expression that is not ended, one that 05 ends, and a byte of no section.
    b"\x09\x04\x01\0A\0",
    b"\x0b\x06\x01\0A\0\x05\0",
    b"\x80",
];

// What the bytes are decoded to.
fn decoded(alloc: Global, bytes: &[u8]) -> Result<String, AllocError> {
    match decode(alloc, bytes) {
        Ok(found) => format!(in alloc; "{found:?}"),
        Err(error) => format!(in alloc; "{error:?}"),
    }
}

#[test]
fn modules_are_decoded(rt: HostRuntime) -> Result<(), Fail> {
    for &(bytes, want) in MODULES {
        let text = decoded(rt.alloc(), bytes)?;
        assert_eq!(rt; text.as_str(), want, "{bytes:?}");
    }
    Ok(())
}

#[test]
fn malformed_modules_are_refused(rt: HostRuntime) -> Result<(), Fail> {
    for sections in MALFORMED {
        let mut bytes = b"\0asm\x01\0\0\0".to_vec(rt.alloc())?;
        bytes.extend_from_slice(sections)?;
        let error = decode(rt.alloc(), &bytes).err();
        assert_eq!(rt; error, Some(DecodeError::Malformed), "{sections:?}");
    }
    Ok(())
}
