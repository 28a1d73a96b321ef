// A row as it was read out of its line, on its way to its number: its fields, the row that they are if all are well written, the draft
// that it is judged by, and what is stored of it.
#![tactic(auto)]

pub mod store;

ghost use Rattle.std.specs.Prelude.{◌≡◌};
ghost use Rattle.parts.specs.Parts.{field_by};
ghost use Rattle.drafts.specs.Drafts.{RowInto, whole_of, draft_of, principal_number};

use keywords::rule_word;
use parts::{Fields, field};
use tables::records::{ABSENT, narrow};
use text::lists::{Listed, read_list, read_side};
use text::numbers::{read_number, read_principal};

// A row that is well written: its number, rule and principal formula, and what is known of its lists.
#[derive(Clone, Copy)]
pub struct RowRead {
    pub number: u32,
    pub rule: u16,
    pub principal: Option<u32>,
    pub premises: Listed,
    pub left: Listed,
    pub right: Listed,
}

// What each field of a row is read as, whatever the others are; None where it is badly written.
#[derive(Clone, Copy)]
pub struct RowFields {
    pub number: Option<u32>,
    pub rule: Option<u16>,
    pub principal: Option<Option<u32>>,
    pub premises: Option<Listed>,
    pub left: Option<Listed>,
    pub right: Option<Listed>,
}

impl RowFields {
    // The row that they are; None where one of them is badly written.
    pub fn whole(self) -> Option<RowRead>
        ensures { result ≡ whole_of self }
    {
        Some(RowRead {
            number: self.number?,
            rule: self.rule?,
            principal: self.principal?,
            premises: self.premises?,
            left: self.left?,
            right: self.right?,
        })
    }
}

// The fields of a row, by its line as it was taken into fields. The first premises and the sides' entries are stored as far as
// there is room for them.
pub fn read_row(
    line: &[u8],
    fields: Fields,
    premises: &mut [u16],
    left: &mut [u16],
    right: &mut [u16],
) -> RowFields
    ensures { RowInto (field_by line.now fields) premises.old left.old right.old
        premises.new left.new right.new result }
{
    let number = read_number(field(line, fields, 1));
    let rule = rule_word(field(line, fields, 2));
    let principal = read_principal(field(line, fields, 3));
    let above = read_list(field(line, fields, 4), premises);
    let antecedent = read_side(field(line, fields, 5), left);
    let succedent = read_side(field(line, fields, 6), right);
    RowFields {
        number,
        rule,
        principal,
        premises: above,
        left: antecedent,
        right: succedent,
    }
}

// The code of a row's rule, its principal formula, what is known of its lists, and its first two premises, 65,535 where there is
// none. What its sides hold stands beside it, in a slice each.
#[derive(Clone, Copy)]
pub struct Draft {
    pub rule: u16,
    pub principal: Option<u32>,
    pub premises: Listed,
    pub first: u16,
    pub second: u16,
    pub left: Listed,
    pub right: Listed,
}

// The draft of a row, with its first two premises.
pub fn drafted(row: RowRead, first: u16, second: u16) -> Draft
    ensures { result ≡ draft_of row first second }
{
    Draft {
        rule: row.rule,
        principal: row.principal,
        premises: row.premises,
        first,
        second,
        left: row.left,
        right: row.right,
    }
}

// The principal formula as a number of a table, 65,535 if absent.
pub fn principal_number(principal: Option<u32>) -> u16
    ensures { result ≡ principal_number principal }
{
    match principal {
        Some(i) => narrow(i),
        None => ABSENT,
    }
}
