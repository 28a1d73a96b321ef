// The last row, against a claim (number 12).
ghost use Rattle.rows.specs.Last.{LastIs};

use rules::{KIND, rule_number};
use sides::members::same;
use sides::sequents::Sequent;
use tables::fetch;
use tables::records::row;

// Whether the last of `count` rows is an ELK row with exactly the sides of the claim.
pub fn last_is<'a>(
    rows: &[u16],
    left: &'a [u16],
    right: &'a [u16],
    count: usize,
    claim: Sequent<'_>,
) -> bool
    ensures { LastIs rows.now left.now right.now count claim.entry.left.now claim.entry.right.now result }
{
    if count == 0 {
        return false;
    }
    let last = count - 1;
    let record = row(rows, last);
    if rule_number(record.rule, KIND) != 0 {
        return false;
    }
    if !same(fetch(rows, left, right, true, last), claim.left) {
        return false;
    }
    same(fetch(rows, left, right, false, last), claim.right)
}
