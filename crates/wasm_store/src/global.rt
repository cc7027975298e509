// A global of a module as it runs.
use wasm_types::Value;

/// The value of a global, and its stamp: the number of the last event that set it, or 0.
#[derive(Clone, Copy, Drop)]
pub(crate) struct Global {
    pub value: Value,
    pub stamp: u64,
}
