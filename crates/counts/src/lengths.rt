// Whether the lent tables are long enough.
ghost use Rattle.std.specs.Prelude.{◌≡◌};
ghost use Rattle.format.specs.Tables.{too_short};

use crate::limits::{LEAST_FORMULAS, LEAST_NAMES, LEAST_ROWS, MOST_ENTRIES};

// Whether a lent table is too short for the most that a file holds, by the lengths as C lends them.
#[tactic(auto, unfolding(format::specs::Tables::too_short))]
pub fn too_short(names: usize, formulas: usize, rows: usize, left: usize, right: usize) -> bool
    ensures { result ≡ too_short (record { names = names; formulas = formulas; rows = rows; left = left; right = right }) }
{
    names < LEAST_NAMES
        || formulas < LEAST_FORMULAS
        || rows < LEAST_ROWS
        || left < MOST_ENTRIES
        || right < MOST_ENTRIES
}
