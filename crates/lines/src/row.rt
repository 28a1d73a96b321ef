// N lines: a row is read, judged apart from being stored, and stored where it passes.
ghost use Rattle.state.specs.Lined.{OfKind};
ghost use Rattle.lines.specs.RowLines.{RowSettled, RowLined};

use crate::line::Line;
use counts::limits::MOST_ON_SIDE;
use drafts::store::store_row;
use drafts::{RowRead, drafted, read_row};
use parts::MOST_FIELDS;
use refusals::Refusal;
use rows::body::Body;
use rows::row_number;
use sides::sequents::Sequent;
use state::{ROWS, State, out_of_order};
use tables::records::ABSENT;

// A row that is well written, by the tables that its lists were read into.
fn settle_row(
    row: RowRead,
    above: &[u16; 2],
    antecedent: &[u16],
    succedent: &[u16],
    formulas: &[u16],
    notes: &[u64],
    rows: &mut [u16],
    left: &mut [u16],
    right: &mut [u16],
    state: State,
) -> Result<State, Refusal>
    ensures { RowSettled row above.now antecedent.now succedent.now
        formulas.now notes.now state result
        rows.old left.old right.old rows.new left.new right.new }
{
    let counts = state.counts;
    if out_of_order(state.stage, ROWS, counts.rows, row.number) {
        return Err(Refusal::OutOfOrder);
    }
    let draft = drafted(row, above[0], above[1]);
    let read = Sequent {
        left: antecedent,
        right: succedent,
    };
    let body = Body {
        formulas,
        notes,
        rows,
        left,
        right,
    };
    let judged = row_number(draft, read, body, counts);
    judged?;
    store_row(draft, antecedent, succedent, rows, left, right, counts);
    Ok(state.passed(counts.with_row(draft.left.count, draft.right.count), ROWS))
}

// An N line.
pub(crate) fn row_line(
    line: Line<'_>,
    formulas: &[u16],
    notes: &[u64],
    rows: &mut [u16],
    left: &mut [u16],
    right: &mut [u16],
    state: State,
) -> Result<State, Refusal>
    requires { OfKind "N" line.bytes.now }
    ensures { RowLined line.entry.bytes.now formulas.now notes.now state result
        rows.old left.old right.old rows.new left.new right.new }
{
    if line.fields.count != MOST_FIELDS {
        return Err(Refusal::BadLine);
    }
    let mut above = [ABSENT; 2];
    let mut l = [0u16; MOST_ON_SIDE];
    let mut r = [0u16; MOST_ON_SIDE];
    let Some(row) = read_row(line.bytes, line.fields, &mut above, &mut l, &mut r).whole() else {
        return Err(Refusal::BadLine);
    };
    settle_row(
        row, &above, &l, &r, formulas, notes, rows, left, right, state,
    )
}
