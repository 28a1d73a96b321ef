// One line of a text judged and, where it passes, stored: read into a draft, tested, and only then written into the lent
// tables, so that a refused line leaves them as they were.
#![tactic(auto)]

mod atom;
mod claim;
mod formula;
mod line;
mod model;
mod row;

ghost use Rattle.std.specs.Prelude.{◌≡◌};
ghost use Rattle.state.specs.State.{tables};
ghost use Rattle.lines.specs.Stepping.{at_line, LineStepped};

use atom::atom_line;
use claim::claim_line;
use formula::formula_line;
use keywords::{Kind, line_kind};
use line::Line;
use model::model_line;
use refusals::Refusal;
use row::row_line;
use state::{Refused, State};

// What a line comes to that is refused on no other line than its own.
fn on_line(line: u32, stepped: Result<State, Refusal>) -> Result<State, Refused>
    ensures { result ≡ at_line line stepped }
{
    match stepped {
        Ok(state) => Ok(state),
        Err(refusal) => Err(Refused { refusal, line }),
    }
}

// The line from `start` to `end` of the text, which is line `number`. A place outside the text is refused as a bad line.
pub fn step_line(
    text: &[u8],
    start: usize,
    end: usize,
    number: u32,
    names: &mut [u16],
    formulas: &mut [u16],
    notes: &mut [u64],
    rows: &mut [u16],
    left: &mut [u16],
    right: &mut [u16],
    state: State,
) -> Result<State, Refused>
    ensures { LineStepped text.now start end number state result
        (tables names.old formulas.old notes.old rows.old left.old right.old)
        (tables names.new formulas.new notes.new rows.new left.new right.new) }
{
    if end > text.len() {
        return on_line(number, Err(Refusal::BadLine));
    }
    if start > end {
        return on_line(number, Err(Refusal::BadLine));
    }
    let line = Line::read(&text[start..end]);
    match line_kind(line.field(0)) {
        Some(Kind::Atom) => on_line(number, atom_line(text, start, end, line, names, state)),
        Some(Kind::Formula) => on_line(number, formula_line(line, formulas, notes, state)),
        Some(Kind::Row) => on_line(
            number,
            row_line(line, formulas, notes, rows, left, right, state),
        ),
        Some(Kind::Model) => on_line(number, model_line(line, number, state)),
        Some(Kind::Claim) => claim_line(line, number, formulas, rows, left, right, state),
        None => on_line(number, Err(Refusal::BadLine)),
    }
}
