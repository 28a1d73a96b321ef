// The tables that a row is judged by.
ghost use Rattle.std.specs.Prelude.{◌≡◌};
ghost use Rattle.format.specs.Tables.{Side, fetched};

use sides::sequents::Sequent;
use tables::fetch;

// The tables of formulas, of what is noted of them and of rows, and the two pools, which always travel together.
#[derive(Clone, Copy)]
pub struct Body<'a> {
    pub formulas: &'a [u16],
    pub notes: &'a [u64],
    pub rows: &'a [u16],
    pub left: &'a [u16],
    pub right: &'a [u16],
}

impl<'a> Body<'a> {
    // The sides of row i.
    pub(crate) fn sides(self, i: u16) -> Sequent<'a>
        ensures left { result.left.now ≡ fetched self.entry.rows.now self.entry.left.now self.entry.right.now Side.left i }
        ensures right { result.right.now ≡ fetched self.entry.rows.now self.entry.left.now self.entry.right.now Side.right i }
    {
        let at = usize::from(i);
        Sequent {
            left: fetch(self.rows, self.left, self.right, true, at),
            right: fetch(self.rows, self.left, self.right, false, at),
        }
    }
}
