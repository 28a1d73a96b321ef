// The tables that a caller lends, which always travel together.
ghost use Rattle.std.specs.Prelude.{◌≡◌};
ghost use Rattle.format.specs.Tables.{too_short};
ghost use Rattle.run.specs.Lent.{lengths, clear, held, Same};

use counts::lengths::too_short;
use tables::clear;

#[derive(Drop)]
pub struct Tables<'a> {
    pub names: &'a mut [u16],
    pub formulas: &'a mut [u16],
    pub rows: &'a mut [u16],
    pub left: &'a mut [u16],
    pub right: &'a mut [u16],
}

impl<'a> Tables<'a> {
    // Zeros through every table.
    pub fn clear(&mut self)
        ensures same { Same self.old self.new }
        ensures cleared { held self.new ≡ clear (lengths (held self.old)) }
    {
        clear(self.names);
        clear(self.formulas);
        clear(self.rows);
        clear(self.left);
        clear(self.right);
    }

    // Whether one of them is too short for the most that a file holds.
    pub fn are_too_short(&self) -> bool
        ensures { result ≡ too_short (lengths (held self.now)) }
    {
        too_short(
            self.names.len(),
            self.formulas.len(),
            self.rows.len(),
            self.left.len(),
            self.right.len(),
        )
    }
}
