// The two sides of a row.

// The left and the right side of one row, which always travel together.
#[derive(Clone, Copy)]
pub struct Sequent<'a> {
    pub left: &'a [u16],
    pub right: &'a [u16],
}
