// Numbers of formulas, beside two that stand for no formula of a side.
// Stands for no number, and for a formula that is not on its side: neither is in any list of 16-bit numbers.
pub const NO_NUMBER: u32 = 65536;

pub const MISSING: u32 = 65537;

// At most two numbers.
#[derive(Clone, Copy)]
pub struct Numbers {
    pub x: u32,
    pub y: u32,
}
