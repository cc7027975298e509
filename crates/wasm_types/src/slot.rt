// A value as two words.
ghost use Rattle.std.specs.Prelude.{◌≡◌};
ghost use Rattle.wasm_types.specs.declared.code.Value.TheVariants.{I32, I64};
ghost use Rattle.wasm_types.specs.Slots.{IsLong, IsNarrow};

use crate::code::Value;
use std::marker::Model;

/// A value as two words, which are copied together. Contracts see the value.
#[derive(Clone, Copy, Drop)]
pub struct Slot {
    // 0 with 32 bits, and 1 with 64.
    wide: u64,
    bits: u64,
}

impl Model for Slot {
    ghost use Rattle.std.specs.Coded.{codes};
    ghost use Rattle.wasm_types.specs.declared.code.Value as value;

    ghost Value = { value.Value };

    ghost coded = { Prim.hlevel codes };

    ghost use Rattle.wasm_types.specs.Slots.{IsSlot, slot_of, slot_of_value, value_of_inside};

    ghost view = { value_of_inside };

    ghost invariant = { IsSlot };

    ghost inverse = { slot_of };

    ghost inverse_ok = { slot_of_value };
}

impl Slot {
    /// The value as two words.
    #[inline(always)]
    pub fn of(value: Value) -> Slot
        ensures { result ≡ value }
    {
        match value {
            Value::I32(x) => Slot::narrow(x),
            Value::I64(x) => Slot::long(x),
        }
    }

    /// A value of 32 bits.
    #[inline(always)]
    pub fn narrow(bits: u32) -> Slot
        ensures { result ≡ I32 bits }
    {
        Slot {
            wide: 0,
            bits: u64::from(bits),
        }
    }

    /// A value of 64 bits.
    #[inline(always)]
    pub fn long(bits: u64) -> Slot
        ensures { result ≡ I64 bits }
    {
        Slot { wide: 1, bits }
    }

    /// The value.
    #[inline(always)]
    pub fn value(self) -> Value
        ensures { result ≡ self }
    {
        if self.wide == 0 {
            Value::I32(self.bits as u32)
        } else {
            Value::I64(self.bits)
        }
    }

    /// The number that a value of 32 bits is, whose type is not looked at.
    #[inline(always)]
    pub fn as_narrow(self) -> u32
        requires { IsNarrow self }
        ensures { self ≡ I32 result }
    {
        self.bits as u32
    }

    /// The same of 64 bits.
    #[inline(always)]
    pub fn as_long(self) -> u64
        requires { IsLong self }
        ensures { self ≡ I64 result }
    {
        self.bits
    }
}
