// Whether a row is an instance of its rule (numbers 18 and 11), by the test of that rule.
ghost use Rattle.std.specs.Prelude.{◌≡◌, cond};
ghost use Rattle.refusals.specs.Refusals.{outcome};
ghost use Rattle.rows.specs.Judging.{StepNumbered};

use crate::body::Body;
use cut::cut_step;
use drafts::{Draft, principal_number};
use literals::{default_step, initial_step};
use refusals::Refusal;
use rules::{Step, step_of};
use schema::schema_step;
use sides::sequents::Sequent;
use swap::swap_number;
use unstable::unstable_step;

// What a row comes to whose rule can earn no 18.
fn instance(holds: bool) -> Result<(), Refusal>
    ensures { outcome result ≡ cond holds 0 11 }
{
    if holds {
        Ok(())
    } else {
        Err(Refusal::WrongStep)
    }
}

// What a row with these sides comes to, whose premises are right: whether it is an instance of its rule.
pub(crate) fn step_number(body: Body<'_>, draft: Draft, row: Sequent<'_>) -> Result<(), Refusal>
    ensures { StepNumbered body.entry.formulas.now body.entry.notes.now body.entry.rows.now
        body.entry.left.now body.entry.right.now draft row.entry.left.now row.entry.right.now
        (outcome result) }
{
    let p = principal_number(draft.principal);
    match step_of(draft.rule) {
        Step::Default => instance(default_step(body.formulas, p, row)),
        Step::Initial => instance(initial_step(body.formulas, row)),
        Step::Cut => {
            let one = body.sides(draft.first);
            let two = body.sides(draft.second);
            instance(cut_step(p, row, one, two))
        }
        Step::Unstable => {
            let one = body.sides(draft.first);
            let two = body.sides(draft.second);
            instance(unstable_step(body.formulas, body.notes, row.left, one, two))
        }
        Step::Schema => {
            let count = draft.premises.count;
            let one = body.sides(draft.first);
            let two = body.sides(draft.second);
            instance(schema_step(body.formulas, draft.rule, p, count, row, one, two))
        }
        Step::Swap => {
            let one = body.sides(draft.first);
            swap_number(body.formulas, body.notes, p, row, one)
        }
    }
}
