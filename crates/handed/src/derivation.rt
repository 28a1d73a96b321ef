// The handed-in rows, each judged again over those before it, by the tables that begin with these.
ghost use Rattle.std.specs.Prelude.{◌≡◌, ◌&&◌, ◌+◌, eqb, leb, length};
ghost use Rattle.text.specs.Lists.{listed_of};
ghost use Rattle.text.specs.Numbers.{number_as};
ghost use Rattle.bodies.specs.Open.{four};
ghost use Rattle.bodies.specs.Walk.{principal_from};
ghost use Rattle.handed.specs.Handed.{premises_in, draft_from, stands_next, NextRow, RowsRead};

use counts::Counts;
use drafts::Draft;
use rows::body::Body;
use rows::row_number;
use sides::sequents::Sequent;
use tables::fetch;
use tables::records::{ABSENT, RowRecord, row};
use text::lists::Listed;

// The codes of rules are below this.
const RULES: usize = 38;

// What is known of a list that is its own table.
fn list_known(list: &[u16]) -> Listed
    ensures { result ≡ listed_of list.now }
{
    let mut above = 0usize;
    let mut rising = true;
    for x in list {
        let x = usize::from(*x);
        rising = rising && above <= x;
        above = above.max(x + 1);
    }
    Listed {
        count: list.len(),
        above,
        rising,
    }
}

// The premises of two fields.
fn premises_listed(first: u16, second: u16) -> Listed
    ensures { result ≡ listed_of (premises_in first second) }
{
    if first == ABSENT {
        return list_known(&[]);
    }
    if second == ABSENT {
        return list_known(&[first]);
    }
    list_known(&[first, second])
}

fn principal_of(field: u16) -> Option<u32>
    ensures { result ≡ number_as (principal_from field) }
{
    if field == ABSENT {
        return None;
    }
    Some(u32::from(field))
}

// Whether a side lies in its pool right after the `held` entries before it.
fn in_place(start: u16, len: u16, held: usize, pool: usize) -> bool
    ensures { result ≡ eqb start held && leb (start + len) pool }
{
    usize::from(start) == held && usize::from(start) + usize::from(len) <= pool
}

// The draft of a row as its record tells it, with these sides.
fn draft_of(stored: RowRecord, sides: Sequent<'_>) -> Draft
    ensures { result ≡ draft_from stored sides.entry.left.now sides.entry.right.now }
{
    Draft {
        rule: stored.rule,
        principal: principal_of(stored.principal),
        premises: premises_listed(stored.first, stored.second),
        first: stored.first,
        second: stored.second,
        left: list_known(sides.left),
        right: list_known(sides.right),
    }
}

// Whether the record of a row can be that of the next one, its sides and premises in their places and its rule one of the rules.
#[tactic(auto, unfolding(crate::specs::Handed::stands_next))]
fn stands_next(stored: RowRecord, left: usize, right: usize, held: Counts) -> bool
    ensures { result ≡ stands_next stored left right held }
{
    in_place(stored.left_start, stored.left_length, held.left, left)
        && in_place(stored.right_start, stored.right_length, held.right, right)
        && usize::from(stored.rule) < RULES
        && (stored.first != ABSENT || stored.second == ABSENT)
}

// The counts with the next row; None where what stands there is no row that may follow.
fn with_next_row(body: Body<'_>, held: Counts) -> Option<Counts>
    ensures { NextRow (four body.entry.formulas.now body.entry.rows.now body.entry.left.now body.entry.right.now)
        body.entry.notes.now held result }
{
    let stored = row(body.rows, held.rows);
    if !stands_next(stored, body.left.len(), body.right.len(), held) {
        return None;
    }
    let sides = Sequent {
        left: fetch(body.rows, body.left, body.right, true, held.rows),
        right: fetch(body.rows, body.left, body.right, false, held.rows),
    };
    let judged = row_number(draft_of(stored, sides), sides, body, held);
    if judged.is_err() {
        return None;
    }
    Some(held.with_row(sides.left.len(), sides.right.len()))
}

// Whether the tables go on with as many rows as are counted, and with no more entries in the pools.
pub(crate) fn read_rows(body: Body<'_>, counts: Counts) -> bool
    ensures { RowsRead (four body.entry.formulas.now body.entry.rows.now body.entry.left.now body.entry.right.now)
        body.entry.notes.now counts result }
{
    let mut held = Counts {
        rows: 0,
        left: 0,
        right: 0,
        ..counts
    };
    for _row in 0..counts.rows {
        let Some(next) = with_next_row(body, held) else {
            return false;
        };
        held = next;
    }
    held.left == counts.left && held.right == counts.right
}
