// The M line.
ghost use Rattle.std.specs.Prelude.{◌≡◌};
ghost use Rattle.format.specs.Tests.{first};
ghost use Rattle.refusals.specs.Refusals.{outcome};
ghost use Rattle.early.specs.Early.{numbered};
ghost use Rattle.state.specs.Lined.{OfKind};
ghost use Rattle.lines.specs.ModelLines.{model_of, WordRead, ModelSettled, ModelLined};

use crate::line::Line;
use atomset::insert;
use counts::limits::MOST_ON_SIDE;
use early::{bad_side, past};
use refusals::Refusal;
use state::{MODELLED, State, out_of_turn};
use tables::records::front;
use text::lists::{Listed, read_side};

// The first of the numbers 4, 7 and 9 that applies to the atoms of a model.
fn atoms_number(atoms: Listed, state: State) -> Result<(), Refusal>
    ensures { numbered (outcome result) ≡ first (model_of atoms state) }
{
    if out_of_turn(state.stage, MODELLED) {
        return Err(Refusal::OutOfOrder);
    }
    if past(atoms, state.counts.atoms) {
        return Err(Refusal::NoSuchItem);
    }
    if bad_side(atoms) {
        return Err(Refusal::BadSide);
    }
    Ok(())
}

// The set of the atoms of a list, as far as a word has room for them.
fn atoms_word(atoms: &[u16]) -> u64
    ensures { WordRead atoms.now result }
{
    let mut set = 0;
    for atom in atoms {
        set = insert(set, usize::from(*atom));
    }
    set
}

// A model that is well written, by the table that its list was read into; the M line is line `number`.
fn settle_model(atoms: Listed, number: u32, list: &[u16], state: State) -> Result<State, Refusal>
    ensures { ModelSettled atoms number list.now state result }
{
    atoms_number(atoms, state)?;
    Ok(state.modelled(atoms_word(front(list, atoms.count)), number))
}

// An M line; it is line `number`.
pub(crate) fn model_line(line: Line<'_>, number: u32, state: State) -> Result<State, Refusal>
    requires { OfKind "M" line.bytes.now }
    ensures { ModelLined line.entry.bytes.now number state result }
{
    if line.fields.count != 2 {
        return Err(Refusal::BadLine);
    }
    let mut list = [0u16; MOST_ON_SIDE];
    let Some(atoms) = read_side(line.field(1), &mut list) else {
        return Err(Refusal::BadLine);
    };
    settle_model(atoms, number, &list, state)
}
