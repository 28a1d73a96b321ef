// The text of one row.
ghost use Rattle.std.specs.Prelude.{◌≡◌};
ghost use Rattle.format.specs.Text.{is};
ghost use Rattle.adding.specs.Reading.{RowLineRead, RowTextRead};

use drafts::{RowRead, read_row};
use parts::{MOST_FIELDS, field, find, read_fields};

// The field names an N line.
fn names_row(field: &[u8]) -> bool
    ensures { result ≡ is "N" field.now }
{
    field == b"N".as_slice()
}

// The row of an N line, with its first premises and its sides' entries as far as there is room for them; no row where the line is
// another one.
fn read_line(
    line: &[u8],
    premises: &mut [u16],
    left: &mut [u16],
    right: &mut [u16],
) -> Option<RowRead>
    ensures { RowLineRead line.now premises.old left.old right.old
        premises.new left.new right.new result }
{
    let fields = read_fields(line);
    if !names_row(field(line, fields, 0)) {
        return None;
    }
    if fields.count != MOST_FIELDS {
        return None;
    }
    read_row(line, fields, premises, left, right).whole()
}

// The same of a text, which has to be one complete line.
pub(crate) fn read_text(
    text: &[u8],
    premises: &mut [u16],
    left: &mut [u16],
    right: &mut [u16],
) -> Option<RowRead>
    ensures { RowTextRead text.now premises.old left.old right.old
        premises.new left.new right.new result }
{
    let end = find(text, 0, b'\n');
    if end >= text.len() {
        return None;
    }
    if end + 1 != text.len() {
        return None;
    }
    read_line(&text[..end], premises, left, right)
}
