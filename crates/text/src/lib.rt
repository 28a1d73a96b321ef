// The readers of fields: numbers, lists and names, out of any bytes. Each contract says what the answer is by the definitions of
// the crate `format`, or by one of `specs/` over them. No function that is `pub` assumes anything of its bytes.
#![tactic(auto)]

pub(crate) mod items;
pub mod lists;
pub mod names;
pub mod numbers;
