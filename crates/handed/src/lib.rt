// Tables and counts that are handed in: whether they are those of a good body (paper 02, M-105). Nothing of them is believed: each
// formula and each row is judged again over what stands before it, and what is known of the formulas is noted anew.
#![tactic(auto)]

mod derivation;
mod formulas;
mod limits;

ghost use Rattle.bodies.specs.Open.{four};
ghost use Rattle.handed.specs.Handed.{BodyRead};

use counts::Counts;
use derivation::read_rows;
use formulas::read_formulas;
use limits::only_counted;
use rows::body::Body;

// Whether the tables with these counts are those of a good body. The notes are to be fresh: as many as for the most formulas, and
// zero.
pub fn holds_body<'a>(
    formulas: &[u16],
    notes: &mut [u64],
    rows: &[u16],
    left: &'a [u16],
    right: &'a [u16],
    counts: Counts,
) -> bool
    ensures { BodyRead (four formulas.now rows.now left.now right.now) counts
        notes.old notes.new result }
{
    if !only_counted(formulas, rows, left, right, counts) {
        return false;
    }
    if !read_formulas(formulas, notes, counts) {
        return false;
    }
    let body = Body {
        formulas,
        notes,
        rows,
        left,
        right,
    };
    read_rows(body, counts)
}
