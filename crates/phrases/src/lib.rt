// The words of the parts of a sentence, each written after what stands before it. The tables may have any length and
// contents.
#![tactic(auto)]

pub mod formulas;
pub mod grounds;
pub mod sides;

// What formulas are told from: the text, which has the names of the atoms, where each of these stands, and the
// formulas.
#[derive(Clone, Copy)]
pub struct Sheet<'a> {
    pub text: &'a [u8],
    pub names: &'a [u16],
    pub formulas: &'a [u16],
}
