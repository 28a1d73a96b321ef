// One item of a list: a number, or a run of numbers.
ghost use Rattle.std.specs.Prelude.{◌≡◌, ◌≤◌, length};
ghost use Rattle.text.specs.Items.{run_at, item_at};

use crate::numbers::{number_at, read_number};
use parts::find;

// The first number of an item and its last, which are one for a single number, and where the item ends.
#[derive(Clone, Copy)]
pub(crate) struct Span {
    pub(crate) first: u32,
    pub(crate) last: u32,
    pub(crate) end: usize,
}

// A run whose first number is read and whose last starts at `at`.
fn read_run(field: &[u8], first: u32, at: usize) -> Option<Span>
    requires { at ≤ length field.now }
    ensures { result ≡ run_at first field.now at }
{
    let end = find(field, at, b',');
    let last = read_number(&field[at..end])?;
    if first < last {
        return Some(Span { first, last, end });
    }
    None
}

// The item that starts at `at`, up to a comma or the end of the field; a run only where `runs` says that there may be one.
pub(crate) fn read_item(field: &[u8], at: usize, runs: bool) -> Option<Span>
    requires { at ≤ length field.now }
    ensures { result ≡ item_at runs field.now at }
{
    let (n, end) = number_at(field, at)?;
    let one = Span {
        first: n,
        last: n,
        end,
    };
    if end == field.len() {
        return Some(one);
    }
    match field[end] {
        b',' => Some(one),
        b'-' if runs => read_run(field, n, end + 1),
        _ => None,
    }
}
