// What can be seen of handed-in tables without reading a record: counts within their limits, and zeros after what they count.
ghost use Rattle.std.specs.Prelude.{◌≡◌, ◌&&◌};
ghost use Rattle.bodies.specs.Open.{four};
ghost use Rattle.bodies.specs.Walk.{within as withinLimits, zeros_from, zeros_after};

use counts::Counts;
use counts::limits::{MOST_ATOMS, MOST_ENTRIES, MOST_FORMULAS, MOST_ROWS, NODE_WIDTH, ROW_WIDTH};

#[tactic(auto, unfolding(bodies::specs::Walk::within))]
fn within(counts: Counts) -> bool
    ensures { result ≡ withinLimits counts }
{
    counts.atoms <= MOST_ATOMS
        && counts.formulas <= MOST_FORMULAS
        && counts.rows <= MOST_ROWS
        && counts.left <= MOST_ENTRIES
        && counts.right <= MOST_ENTRIES
}

// Whether nothing but zero stands in a table from a place on. Every number is looked at, so that many can be compared at once; `all` would
// end at the first that is not zero.
fn zeros_from(table: &[u16], from: usize) -> bool
    ensures { result ≡ zeros_from from table.now }
{
    table
        .get(from..)
        .unwrap_or(&[])
        .iter()
        .fold(true, |zeros, x| zeros & (*x == 0))
}

// Whether no count is over its limit, and nothing but zero follows what is counted.
#[tactic(auto, using(crate::proofs::Zeros::limits_kept))]
pub(crate) fn only_counted(
    formulas: &[u16],
    rows: &[u16],
    left: &[u16],
    right: &[u16],
    counts: Counts,
) -> bool
    ensures { result ≡ withinLimits counts
        && zeros_after (four formulas.now rows.now left.now right.now) counts }
{
    within(counts)
        && zeros_from(formulas, NODE_WIDTH * counts.formulas)
        && zeros_from(rows, ROW_WIDTH * counts.rows)
        && zeros_from(left, counts.left)
        && zeros_from(right, counts.right)
}
