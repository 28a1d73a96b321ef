// The C line.
ghost use Rattle.std.specs.Prelude.{◌≡◌};
ghost use Rattle.format.specs.Tests.{first};
ghost use Rattle.refusals.specs.Refusals.{outcome};
ghost use Rattle.early.specs.Early.{numbered};
ghost use Rattle.state.specs.Lined.{OfKind};
ghost use Rattle.lines.specs.ClaimLines.{claim_of, model_before, ClaimSettled, ClaimLined};

use crate::line::Line;
use counts::limits::MOST_ON_SIDE;
use early::{bad_sides, past};
use models::model_number;
use refusals::Refusal;
use rows::last::last_is;
use sides::sequents::Sequent;
use state::{CLAIMED, MODELLED, Refused, State, out_of_turn};
use tables::records::front;
use text::lists::{Listed, read_side};

// The first of the numbers 4, 7 and 9 that applies to a claim.
fn claim_number(antecedent: Listed, succedent: Listed, state: State) -> Result<(), Refusal>
    ensures { numbered (outcome result) ≡ first (claim_of antecedent succedent state) }
{
    let counts = state.counts;
    if out_of_turn(state.stage, CLAIMED) {
        return Err(Refusal::OutOfOrder);
    }
    if past(antecedent, counts.formulas) || past(succedent, counts.formulas) {
        return Err(Refusal::NoSuchItem);
    }
    if bad_sides(antecedent, succedent) {
        return Err(Refusal::BadSide);
    }
    Ok(())
}

// The atoms of the M line, if it was the last line.
fn model_before(state: State) -> Option<u64>
    ensures { result ≡ model_before state }
{
    match state.model {
        Some(model) if state.stage == MODELLED => Some(model.atoms),
        _ => None,
    }
}

// A claim that is well written, by the tables that its lists were read into.
fn settle_claim<'a>(
    antecedent: Listed,
    succedent: Listed,
    number: u32,
    l: &[u16],
    r: &[u16],
    formulas: &[u16],
    rows: &[u16],
    left: &'a [u16],
    right: &'a [u16],
    state: State,
) -> Result<State, Refused>
    ensures { ClaimSettled antecedent succedent number l.now r.now
        formulas.now rows.now left.now right.now state result }
{
    if let Err(refusal) = claim_number(antecedent, succedent, state) {
        return Err(Refused {
            refusal,
            line: number,
        });
    }
    let claim = Sequent {
        left: front(l, antecedent.count),
        right: front(r, succedent.count),
    };
    if !last_is(rows, left, right, state.counts.rows, claim) {
        return Err(Refused {
            refusal: Refusal::ClaimDiffers,
            line: number,
        });
    }
    let model = model_before(state);
    if let Err(refusal) = model_number(formulas, claim.left, claim.right, model) {
        return Err(Refused {
            refusal,
            line: state.model_report(number),
        });
    }
    Ok(state.claimed(number))
}

// A C line; it is line `number`.
pub(crate) fn claim_line<'a>(
    line: Line<'_>,
    number: u32,
    formulas: &[u16],
    rows: &[u16],
    left: &'a [u16],
    right: &'a [u16],
    state: State,
) -> Result<State, Refused>
    requires { OfKind "C" line.bytes.now }
    ensures { ClaimLined line.entry.bytes.now number formulas.now rows.now left.now
        right.now state result }
{
    let badly = Refused {
        refusal: Refusal::BadLine,
        line: number,
    };
    if line.fields.count != 3 {
        return Err(badly);
    }
    let mut l = [0u16; MOST_ON_SIDE];
    let mut r = [0u16; MOST_ON_SIDE];
    let antecedent = read_side(line.field(1), &mut l);
    let succedent = read_side(line.field(2), &mut r);
    let Some(antecedent) = antecedent else {
        return Err(badly);
    };
    let Some(succedent) = succedent else {
        return Err(badly);
    };
    settle_claim(
        antecedent, succedent, number, &l, &r, formulas, rows, left, right, state,
    )
}
