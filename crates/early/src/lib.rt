// The numbers of a row that come before its rule: room, references and sides, by the row as it was read and the counts.
#![tactic(auto)]

ghost use Rattle.std.specs.Prelude.{◌≡◌, ◌||◌};
ghost use Rattle.format.specs.Tests.{first};
ghost use Rattle.refusals.specs.Refusals.{outcome};
ghost use Rattle.early.specs.Early.{past_of, ahead_of, bad_of, references_of, early_of, numbered};

use counts::Counts;
use counts::limits::MOST_ON_SIDE;
use drafts::Draft;
use refusals::Refusal;
use text::lists::Listed;

// Whether some number of a list is not below `held`.
pub fn past(list: Listed, held: usize) -> bool
    ensures { result ≡ past_of list held }
{
    held < list.above
}

// Whether the principal formula is not below `held`.
fn ahead(principal: Option<u32>, held: usize) -> bool
    ensures { result ≡ ahead_of principal held }
{
    principal.is_some_and(|i| held <= i as usize)
}

// Whether a side does not rise strictly, or is too long.
pub fn bad_side(side: Listed) -> bool
    ensures { result ≡ bad_of side }
{
    !side.rising || MOST_ON_SIDE < side.count
}

// Whether one of two sides is bad.
pub fn bad_sides(left: Listed, right: Listed) -> bool
    ensures { result ≡ bad_of left || bad_of right }
{
    bad_side(left) || bad_side(right)
}

// Whether a number that the row refers to is not earlier.
fn refers_ahead(draft: Draft, counts: Counts) -> bool
    ensures { result ≡ references_of draft counts }
{
    ahead(draft.principal, counts.formulas)
        || past(draft.premises, counts.rows)
        || past(draft.left, counts.formulas)
        || past(draft.right, counts.formulas)
}

// The first of the numbers 5, 7 and 9 that applies.
pub fn early_number(draft: Draft, counts: Counts) -> Result<(), Refusal>
    ensures { numbered (outcome result) ≡ first (early_of draft counts) }
{
    let left = draft.left;
    let right = draft.right;
    if counts.is_full(left.count, right.count) {
        return Err(Refusal::Full);
    }
    if refers_ahead(draft, counts) {
        return Err(Refusal::NoSuchItem);
    }
    if bad_sides(left, right) {
        return Err(Refusal::BadSide);
    }
    Ok(())
}
