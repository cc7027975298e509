// What a call takes and gives.

/// A call's parameters and result. All parameters are i32 but where `wide_param` says that the one
/// parameter is i64.
#[derive(Clone, Copy, Drop)]
pub struct Signature {
    /// How many parameters the call has.
    pub params: u8,
    pub wide_param: bool,
    /// The width of the result in bits, 32 or 64, or 0 where there is no result.
    pub result: u8,
}
