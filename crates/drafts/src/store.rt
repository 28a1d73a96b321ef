// A row stored, after it has passed: the one place that writes rows and sides.
ghost use Rattle.std.specs.Prelude.{◌≡◌};
ghost use Rattle.drafts.specs.Storing.{record_of, RowStored};

use crate::{Draft, principal_number};
use counts::Counts;
use tables::records::{RowRecord, front, narrow_place, put_row, put_side};

fn recorded(draft: Draft, counts: Counts) -> RowRecord
    ensures { result ≡ record_of draft counts }
{
    RowRecord {
        rule: draft.rule,
        principal: principal_number(draft.principal),
        first: draft.first,
        second: draft.second,
        left_start: narrow_place(counts.left),
        left_length: narrow_place(draft.left.count),
        right_start: narrow_place(counts.right),
        right_length: narrow_place(draft.right.count),
    }
}

// The row after the others, its sides after theirs.
pub fn store_row(
    draft: Draft,
    antecedent: &[u16],
    succedent: &[u16],
    rows: &mut [u16],
    left: &mut [u16],
    right: &mut [u16],
    counts: Counts,
)
    ensures { RowStored draft counts antecedent.now succedent.now
        rows.old left.old right.old rows.new left.new right.new }
{
    put_row(rows, counts.rows, recorded(draft, counts));
    put_side(left, counts.left, front(antecedent, draft.left.count));
    put_side(right, counts.right, front(succedent, draft.right.count));
}
