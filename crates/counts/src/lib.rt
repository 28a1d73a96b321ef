// The counts of a body that tables hold, handed in and back by value. A method that adds an item hands back the counts with it, or
// the same counts where a limit would be passed.
#![tactic(auto)]

pub mod lengths;
pub mod limits;

ghost use Rattle.std.specs.Prelude.{◌≡◌, ◌+◌, ltb};
ghost use Rattle.format.specs.Tables.{most_entries};
ghost use Rattle.counts.specs.Counts.{no_counts, count_atom, count_formula, full_for, count_row};

use crate::limits::{MOST_ATOMS, MOST_ENTRIES, MOST_FORMULAS, MOST_ROWS};

#[repr(C)]
#[derive(Clone, Copy, PartialEq, Eq)]
pub struct Counts {
    pub atoms: usize,
    pub formulas: usize,
    pub rows: usize,
    pub left: usize,
    pub right: usize,
}

// Whether a pool that holds so many entries has no room for more.
fn passes(held: usize, entries: usize) -> bool
    ensures { result ≡ ltb most_entries (held + entries) }
{
    MOST_ENTRIES < held.saturating_add(entries)
}

impl Counts {
    // The counts of an empty body.
    pub fn none() -> Counts
        ensures { result ≡ no_counts }
    {
        Counts {
            atoms: 0,
            formulas: 0,
            rows: 0,
            left: 0,
            right: 0,
        }
    }

    #[tactic(auto, unfolding(crate::specs::Counts::count_atom))]
    pub fn with_atom(self) -> Counts
        ensures { result ≡ count_atom self }
    {
        if self.atoms >= MOST_ATOMS {
            return self;
        }
        Counts {
            atoms: self.atoms + 1,
            ..self
        }
    }

    #[tactic(auto, unfolding(crate::specs::Counts::count_formula))]
    pub fn with_formula(self) -> Counts
        ensures { result ≡ count_formula self }
    {
        if self.formulas >= MOST_FORMULAS {
            return self;
        }
        Counts {
            formulas: self.formulas + 1,
            ..self
        }
    }

    // Whether there is no room for a row with so many numbers on its sides.
    #[tactic(auto, unfolding(crate::specs::Counts::full_for))]
    pub fn is_full(self, left: usize, right: usize) -> bool
        ensures { result ≡ full_for self left right }
    {
        MOST_ROWS <= self.rows || passes(self.left, left) || passes(self.right, right)
    }

    #[tactic(auto, unfolding(crate::specs::Counts::count_row, crate::specs::Counts::full_for))]
    pub fn with_row(self, left: usize, right: usize) -> Counts
        ensures { result ≡ count_row self left right }
    {
        if self.is_full(left, right) {
            return self;
        }
        Counts {
            rows: self.rows + 1,
            left: self.left + left,
            right: self.right + right,
            ..self
        }
    }
}
