// Values by their bits.
ghost use Rattle.std.specs.Prelude.{◌≡◌};
ghost use Rattle.wasm_values.specs.Values.{bits_of};

use wasm_types::Value;

/// The bits of a value, and 0 where there is none.
#[inline(always)]
pub fn bits(v: Option<Value>) -> u64
    ensures { result ≡ bits_of v }
{
    match v {
        None => 0,
        Some(Value::I32(x)) => u64::from(x),
        Some(Value::I64(x)) => x,
    }
}
