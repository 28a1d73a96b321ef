// The model beside a claim (paper 02, M-101): whether one is wanted, has few atoms, and is an equilibrium model of the claim's left
// side, the sheet. The model is one 64-bit word. Its proper parts are counted, and each is judged with the model as a pair of words.
#![tactic(auto)]

ghost use Rattle.std.specs.Prelude.{◌≡◌, not, ◌≤◌, length, is_some, unwrap_or};
ghost use Rattle.refusals.specs.Refusals.{outcome};
ghost use Rattle.format.specs.Text.{all};
ghost use Rattle.format.specs.Tables.{most_formulas};
ghost use Rattle.format.specs.Model.{most_in_model};
ghost use Rattle.atomset.specs.AtomSet.{members};
ghost use Rattle.pairs.specs.Truths.{noted_at};
ghost use Rattle.models.specs.Models.{only_falsum, some_upsets, in_equilibrium, Prepared, ModelNumbered};

use atomset::count;
use counts::limits::MOST_FORMULAS;
use pairs::{fill_here, fill_there, holds, part_of, past_largest};
use refusals::Refusal;
use tables::records::{BOT, node};

// The most atoms of a model.
const MOST_IN_MODEL: usize = 16;

// Whether a side holds no formula but falsum: a claim with this right side reports a contradiction.
fn only_falsum(formulas: &[u16], side: &[u16]) -> bool
    ensures { result ≡ only_falsum formulas.now side.now }
{
    side.iter()
        .all(|x| node(formulas, usize::from(*x)).word == BOT)
}

// Whether all formulas of a side are noted to hold.
fn holds_all(notes: &[u8], side: &[u16]) -> bool
    ensures { result ≡ all (noted_at notes.now) side.now }
{
    side.iter().all(|x| holds(notes, usize::from(*x)))
}

// Whether no proper part of the model satisfies the sheet with it. `there` notes what holds in the model itself, and `here` is room
// for notes; the formulas of the sheet are below `end`.
fn undisturbed(
    formulas: &[u16],
    sheet: &[u16],
    model: u64,
    end: usize,
    there: &[u8],
    here: &mut [u8],
) -> bool
    requires { Prepared formulas.now sheet.now model end there.now here.old }
    ensures { result ≡ not (some_upsets formulas.now sheet.now model) }
{
    let last = (1u64 << count(model)) - 1;
    let mut upset = false;
    'parts: for n in 0..last {
        fill_here(formulas, end, part_of(model, n), there, here);
        for i in 0..sheet.len() {
            if !holds(here, usize::from(sheet[i])) {
                continue 'parts;
            }
        }
        upset = true;
        break 'parts;
    }
    !upset
}

// Whether the model is in equilibrium, with room for notes on the formulas.
fn tested_with(
    formulas: &[u16],
    sheet: &[u16],
    model: u64,
    there: &mut [u8],
    here: &mut [u8],
) -> bool
    requires { (length (members model) ≤ most_in_model) × (length there.old ≡ most_formulas) × (length here.old ≡ most_formulas) }
    ensures { result ≡ in_equilibrium formulas.now sheet.now model }
{
    let end = past_largest(sheet);
    fill_there(formulas, end, model, there);
    if !holds_all(there, sheet) {
        return false;
    }
    undisturbed(formulas, sheet, model, end, there, here)
}

// Whether a model of few atoms is in equilibrium.
fn in_equilibrium(formulas: &[u16], sheet: &[u16], model: u64) -> bool
    requires { length (members model) ≤ most_in_model }
    ensures { result ≡ in_equilibrium formulas.now sheet.now model }
{
    let mut there = [0u8; MOST_FORMULAS];
    let mut here = [0u8; MOST_FORMULAS];
    tested_with(formulas, sheet, model, &mut there, &mut here)
}

// The model beside a claim, if there is one, against what the claim wants: the first of 15, 16 and 17 that applies.
pub fn model_number(
    formulas: &[u16],
    left: &[u16],
    right: &[u16],
    model: Option<u64>,
) -> Result<(), Refusal>
    ensures { ModelNumbered formulas.now left.now right.now (is_some model) (unwrap_or model 0) (outcome result) }
{
    let contradiction = only_falsum(formulas, right);
    let Some(atoms) = model else {
        if contradiction {
            return Ok(());
        }
        return Err(Refusal::ModelMissingOrUnwanted);
    };
    if contradiction {
        return Err(Refusal::ModelMissingOrUnwanted);
    }
    if MOST_IN_MODEL < count(atoms) {
        return Err(Refusal::ModelTooLarge);
    }
    if in_equilibrium(formulas, left, atoms) {
        return Ok(());
    }
    Err(Refusal::NotInEquilibrium)
}
