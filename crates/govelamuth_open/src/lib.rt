// The calls for C on open files, each under its C name: a slice is a pointer and a length. `include/govelamuth.h` has their promises.
// They are a library of their own, so that whoever judges whole texts alone links nothing of it.
#![tactic(auto)]

ghost use Rattle.run.specs.Lent.{five, lengths};
ghost use Rattle.bodies.specs.Open.{four};
ghost use Rattle.opening.specs.Contract.{Opens};
ghost use Rattle.adding.specs.Contract.{Adds, Previews};

use adding::{Added, OpenFile};
use answers::Answer;
use counts::Counts;
use judge::Judged;
use opening::open;
use run::lent::Tables;

// A beginning opened: the counts of what it holds, and its tables.
#[unsafe(no_mangle)]
pub extern "C" fn elk_open(
    text: &[u8],
    names: &mut [u16],
    formulas: &mut [u16],
    rows: &mut [u16],
    left: &mut [u16],
    right: &mut [u16],
) -> Judged
    ensures { Opens text.now
        (lengths (five names.old formulas.old rows.old left.old right.old))
        (five names.new formulas.new rows.new left.new right.new) result }
{
    let mut lent = Tables {
        names,
        formulas,
        rows,
        left,
        right,
    };
    open(text, &mut lent)
}

// The row of a text added to an open file.
#[unsafe(no_mangle)]
pub extern "C" fn elk_add(
    text: &[u8],
    formulas: &[u16],
    rows: &mut [u16],
    left: &mut [u16],
    right: &mut [u16],
    counts: Counts,
) -> Added
    ensures { Adds (four formulas.now rows.old left.old right.old)
        counts text.now
        (four formulas.now rows.new left.new right.new) result }
{
    let file = OpenFile { counts };
    file.add(text, formulas, rows, left, right)
}

// What adding the row would answer.
#[unsafe(no_mangle)]
pub extern "C" fn elk_preview<'a>(
    text: &[u8],
    formulas: &[u16],
    rows: &[u16],
    left: &'a [u16],
    right: &'a [u16],
    counts: Counts,
) -> Answer
    ensures { Previews (four formulas.now rows.now left.now right.now)
        counts text.now result }
{
    let file = OpenFile { counts };
    file.preview(text, formulas, rows, left, right)
}
