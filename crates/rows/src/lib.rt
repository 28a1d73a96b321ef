// One row of a derivation judged by tables that begin with a good body: room for it (5), what it refers to (7), its sides (9), its
// premises (10), and whether it is an instance of its rule (18, 11). Nothing is stored, and what stands after the body does not matter.
#![tactic(auto)]

pub mod body;
pub mod last;
mod premises;
mod step;

ghost use Rattle.refusals.specs.Refusals.{outcome};
ghost use Rattle.rows.specs.Judgement.{RowNumbered};

use body::Body;
use counts::Counts;
use drafts::Draft;
use early::early_number;
use premises::wrong_premises;
use refusals::Refusal;
use sides::sequents::Sequent;
use step::step_number;
use tables::records::front;

// What a row comes to as it was read, with the tables that its sides were read into: the first refusal that applies.
pub fn row_number(
    draft: Draft,
    read: Sequent<'_>,
    body: Body<'_>,
    counts: Counts,
) -> Result<(), Refusal>
    ensures { RowNumbered draft counts read.entry.left.now read.entry.right.now body.entry.formulas.now
        body.entry.notes.now body.entry.rows.now body.entry.left.now body.entry.right.now (outcome result) }
{
    early_number(draft, counts)?;
    if wrong_premises(body.rows, draft) {
        return Err(Refusal::WrongPremises);
    }
    let row = Sequent {
        left: front(read.left, draft.left.count),
        right: front(read.right, draft.right.count),
    };
    step_number(body, draft, row)
}
