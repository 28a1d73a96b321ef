// The lent tables of 16-bit numbers (paper 01, "The text"): how records are read, written and looked for, and how a side is
// fetched out of its pool. Every function takes tables of any length and contents: what does not lie inside is absent, and
// what does not fit changes nothing. The contracts are by definitions over any lists; the laws for tables that hold a file
// stand in proofs/.
#![tactic(auto)]

pub mod names;
pub mod records;

ghost use Rattle.std.specs.Prelude.{◌≡◌, length, replicate};
ghost use Rattle.format.specs.Tables.{fetched};
ghost use Rattle.tables.specs.Records.{side_wanted};

use counts::limits::ROW_WIDTH;
use records::part;

// The antecedent (left) or succedent (right) of a row, as the part of its pool; empty where the row or the part lies outside.
// A flag says which: who fetches asks for both, and a type for it would be named at each call as the flag is.
pub fn fetch<'a>(
    rows: &[u16],
    left: &'a [u16],
    right: &'a [u16],
    want_left: bool,
    row: usize,
) -> &'a [u16]
    ensures { result.now ≡ fetched rows.now left.now right.now (side_wanted want_left) row }
{
    if row >= rows.len() / ROW_WIDTH {
        return &left[0..0];
    }
    let at = ROW_WIDTH * row;
    if want_left {
        return part(left, rows[at + 4], rows[at + 5]);
    }
    part(right, rows[at + 6], rows[at + 7])
}

// Every number of the table becomes 0.
pub fn clear(table: &mut [u16])
    ensures { table.new ≡ replicate (length table.old) 0 }
{
    table.fill(0);
}
