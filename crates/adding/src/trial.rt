// A row tried in an open file: 1, then 4 for the open file, then 2, then the row's own numbers with line 1.
ghost use Rattle.std.specs.Prelude.{◌≡◌};
ghost use Rattle.bodies.specs.Open.{four};
ghost use Rattle.adding.specs.Trials.{turned_down_by, TextJudged, RowTried};

use crate::reading::read_text;
use counts::Counts;
use counts::lengths::too_short;
use counts::limits::{LEAST_NAMES, LEAST_NOTES, MOST_BYTES};
use drafts::{Draft, drafted};
use handed::holds_body;
use refusals::Refusal;
use rows::body::Body;
use rows::row_number;
use sides::sequents::Sequent;
use state::Refused;
use tables::records::ABSENT;

fn turned_down(refusal: Refusal, line: u32) -> Result<Draft, Refused>
    ensures { result ≡ turned_down_by refusal line }
{
    Err(Refused { refusal, line })
}

// The row of a text, judged by the tables and the notes of a good body, as it was read if it passes. Its sides are read into `l` and `r`.
fn judge_text(
    text: &[u8],
    body: Body<'_>,
    counts: Counts,
    l: &mut [u16],
    r: &mut [u16],
) -> Result<Draft, Refusal>
    ensures { TextJudged (four body.entry.formulas.now body.entry.rows.now body.entry.left.now body.entry.right.now)
        body.entry.notes.now counts text.now l.old r.old l.new r.new result }
{
    let mut above = [ABSENT; 2];
    let Some(row) = read_text(text, &mut above, l, r) else {
        return Err(Refusal::BadLine);
    };
    if row.number as usize != counts.rows {
        return Err(Refusal::OutOfOrder);
    }
    let draft = drafted(row, above[0], above[1]);
    let judged = row_number(draft, Sequent { left: l, right: r }, body, counts);
    judged?;
    Ok(draft)
}

// The row of a text tried in an open file. Its sides are read into `l` and `r`.
pub(crate) fn try_row(
    text: &[u8],
    formulas: &[u16],
    rows: &[u16],
    left: &[u16],
    right: &[u16],
    counts: Counts,
    l: &mut [u16],
    r: &mut [u16],
) -> Result<Draft, Refused>
    ensures { RowTried (four formulas.now rows.now left.now right.now)
        counts text.now l.old r.old l.new r.new result }
{
    if too_short(
        LEAST_NAMES,
        formulas.len(),
        rows.len(),
        left.len(),
        right.len(),
    ) {
        return turned_down(Refusal::ShortTable, 0);
    }
    let mut notes = [0u64; LEAST_NOTES];
    if !holds_body(formulas, &mut notes, rows, left, right, counts) {
        return turned_down(Refusal::OutOfOrder, 0);
    }
    if MOST_BYTES < text.len() {
        return turned_down(Refusal::TooLong, 0);
    }
    let body = Body {
        formulas,
        notes: &notes,
        rows,
        left,
        right,
    };
    match judge_text(text, body, counts, l, r) {
        Ok(draft) => Ok(draft),
        Err(refusal) => turned_down(refusal, 1),
    }
}
