// The rule `swap` (paper 02, M-104): L,B => R gives L,A => R, where A and B hold in the same here-and-there interpretations and have at
// most 8 atoms together. A formula of the premise's left side that the row's lacks is the only B that can leave the sides right; where
// there is none, each formula of the premise's left side does so, or none does.
#![tactic(auto)]

ghost use Rattle.refusals.specs.Refusals.{outcome};
ghost use Rattle.swap.specs.Swap.{SwapNumbered};

use candidates::candidates_number;
use refusals::Refusal;
use sides::covering::first_outside;
use sides::fitting::fit;
use sides::members::same;
use sides::numbers::{NO_NUMBER, Numbers};
use sides::sequents::Sequent;

// What a row by `swap` comes to, for the formula A of this number and one premise: no refusal if it is an instance, too many atoms if
// none with few atoms fits and some B that leaves the sides right has more, else a wrong step.
pub fn swap_number(
    formulas: &[u16],
    notes: &[u64],
    principal: u16,
    row: Sequent<'_>,
    one: Sequent<'_>,
) -> Result<(), Refusal>
    ensures { SwapNumbered formulas.now notes.now principal row.entry.left.now row.entry.right.now
        one.entry.left.now one.entry.right.now (outcome result) }
{
    if !same(row.right, one.right) {
        return Err(Refusal::WrongStep);
    }
    let swapped = Numbers {
        x: u32::from(principal),
        y: NO_NUMBER,
    };
    let at = first_outside(one.left, row.left);
    if at < one.left.len() {
        let only = Numbers {
            x: u32::from(one.left[at]),
            y: NO_NUMBER,
        };
        if !fit(row.left, swapped, one.left, only) {
            return Err(Refusal::WrongStep);
        }
        return candidates_number(formulas, notes, principal, &one.left[at..at + 1]);
    }
    let none = Numbers {
        x: NO_NUMBER,
        y: NO_NUMBER,
    };
    if !fit(row.left, swapped, one.left, none) {
        return Err(Refusal::WrongStep);
    }
    candidates_number(formulas, notes, principal, one.left)
}
