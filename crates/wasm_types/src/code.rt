// Value types, values and instructions.
ghost use Rattle.std.specs.Prelude.{◌≡◌};
ghost use Rattle.wasm_types.specs.Floats.{is_float};

/// A value type (WebAssembly 1.0, section 2.3.1).
#[derive(Clone, Copy, Debug, Drop)]
pub enum ValType {
    I32,
    I64,
    F32,
    F64,
}

impl ValType {
    /// Whether it is a type of floats.
    #[inline(always)]
    pub fn is_float(self) -> bool
        ensures { result ≡ is_float self }
    {
        matches!(self, ValType::F32 | ValType::F64)
    }
}

/// A value that a module computes with, as its bits. Modules with floats are not run, so there is
/// no value of their types.
#[derive(Clone, Copy, Debug, Drop)]
pub enum Value {
    I32(u32),
    I64(u64),
}

/// An instruction with those inside it (WebAssembly 1.0, section 2.4).
// It is dropped by recursion. That is fine, since a decoded module nests at most 1,000 blocks.
#[derive(Debug, Drop)]
pub enum Instr {
    Unreachable,
    Nop,
    /// A block with its result and its body.
    Block(Option<ValType>, Vec<Instr>),
    /// A loop with its result and its body.
    Loop(Option<ValType>, Vec<Instr>),
    /// A choice with its result, the body for a condition other than 0, and the one for 0, which is
    /// empty where there is no `else`.
    If(Option<ValType>, Vec<Instr>, Vec<Instr>),
    /// A branch to a label. Labels count the blocks outward from 0.
    Br(u32),
    BrIf(u32),
    /// A branch by an index to one of the labels, and past them to the last one.
    BrTable(Vec<u32>, u32),
    Return,
    /// A call of the function with this index.
    CallFunc(u32),
    /// A call through the table of a function that has the type with this index.
    CallIndirect(u32),
    /// The instruction `drop`.
    DropTop,
    Select,
    LocalGet(u32),
    LocalSet(u32),
    LocalTee(u32),
    GlobalGet(u32),
    GlobalSet(u32),
    /// A load, with its opcode from 0x28 to 0x35. The alignment is an exponent of 2.
    Load { opcode: u8, align: u32, offset: u32 },
    /// A store, with its opcode from 0x36 to 0x3E. The alignment is an exponent of 2.
    Store { opcode: u8, align: u32, offset: u32 },
    MemorySize,
    MemoryGrow,
    /// A constant, as its bits.
    ConstI32(u32),
    ConstI64(u64),
    ConstF32(u32),
    ConstF64(u64),
    /// A numeric instruction without immediates, as its opcode from 0x45 to 0xC4.
    Op(u8),
}
