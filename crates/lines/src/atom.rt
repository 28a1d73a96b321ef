// A lines.
ghost use Rattle.std.specs.Prelude.{◌≡◌, ◌≤◌, length};
ghost use Rattle.refusals.specs.Refusals.{outcome};
ghost use Rattle.parts.specs.Parts.{between};
ghost use Rattle.state.specs.Lined.{OfKind};
ghost use Rattle.lines.specs.AtomLines.{AtomNumbered, AtomLined};

use crate::line::Line;
use counts::limits::MOST_ATOMS;
use refusals::Refusal;
use state::{ATOMS, State, out_of_order};
use tables::names::find_name;
use tables::records::{narrow_place, put_name};
use text::names::is_name;
use text::numbers::read_number;

// The first of the numbers 4 to 6 that applies to an atom.
fn atom_number(text: &[u8], names: &[u16], state: State, n: u32, name: &[u8]) -> Result<(), Refusal>
    ensures { AtomNumbered text.now names.now state n name.now (outcome result) }
{
    let atoms = state.counts.atoms;
    if out_of_order(state.stage, ATOMS, atoms, n) {
        return Err(Refusal::OutOfOrder);
    }
    if MOST_ATOMS <= atoms {
        return Err(Refusal::Full);
    }
    if !is_name(name) {
        return Err(Refusal::BadName);
    }
    if find_name(text, names, atoms, name).is_some() {
        return Err(Refusal::BadName);
    }
    Ok(())
}

// An A line that starts at `start` and ends at `end` of the text.
pub(crate) fn atom_line(
    text: &[u8],
    start: usize,
    end: usize,
    line: Line<'_>,
    names: &mut [u16],
    state: State,
) -> Result<State, Refusal>
    requires { (start ≤ end) × (end ≤ length text.now) × (line.bytes.now ≡ between text.now start end) × OfKind "A" line.bytes.now }
    ensures { AtomLined text.now start line.entry.bytes.now state result names.old names.new }
{
    if line.fields.count != 3 {
        return Err(Refusal::BadLine);
    }
    let number_field = line.field(1);
    let Some(n) = read_number(number_field) else {
        return Err(Refusal::BadLine);
    };
    let name = line.field(2);
    atom_number(text, names, state, n, name)?;
    let counts = state.counts;
    let name_start = start + 3 + number_field.len();
    put_name(
        names,
        counts.atoms,
        narrow_place(name_start),
        narrow_place(name.len()),
    );
    Ok(state.passed(counts.with_atom(), ATOMS))
}
