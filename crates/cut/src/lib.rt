// The rule rcut: L => R,A and L,A => Q give L => R,Q.
#![tactic(auto)]

ghost use Rattle.std.specs.Prelude.{ℕ, ◌≡◌, [], ◌∷◌};
ghost use Rattle.equilibrium.specs.Meaning.{◌∈◌, ◌⊆◌};
ghost use Rattle.sides.specs.Deciding.{DecidesIf};
ghost use Rattle.sides.specs.Members.{AllRise};
ghost use Rattle.cut.specs.Cut.{CutSides};

use sides::covering::{covered, covered_by_either};
use sides::fitting::fit;
use sides::members::contains;
use sides::numbers::{NO_NUMBER, Numbers};
use sides::sequents::Sequent;

// Whether every number of a side other than p is in `whole`.
fn covered_but(side: &[u16], p: u16, whole: &[u16]) -> bool
    ensures { DecidesIf (AllRise (side.now ∷ whole.now ∷ []))
        ((z : ℕ) → z ∈ side.now → (z ≡ p → ⊥) → z ∈ whole.now) result }
{
    covered(side, u32::from(p), NO_NUMBER, whole)
}

// Whether every number of a side is in `whole`.
fn all_covered(side: &[u16], whole: &[u16]) -> bool
    ensures { DecidesIf (AllRise (side.now ∷ whole.now ∷ [])) (side.now ⊆ whole.now) result }
{
    covered(side, NO_NUMBER, NO_NUMBER, whole)
}

// Whether the sides of a row, of its first and of its second premise are those of the rule, for the formula A of this number.
pub fn cut_step(principal: u16, row: Sequent<'_>, one: Sequent<'_>, two: Sequent<'_>) -> bool
    ensures { DecidesIf
        (AllRise (row.entry.left.now ∷ row.entry.right.now ∷ one.entry.left.now ∷ one.entry.right.now
        ∷ two.entry.left.now ∷ two.entry.right.now ∷ []))
        (CutSides principal row.entry.left.now row.entry.right.now one.entry.left.now one.entry.right.now
        two.entry.left.now two.entry.right.now) result }
{
    let none = Numbers {
        x: NO_NUMBER,
        y: NO_NUMBER,
    };
    if !fit(row.left, none, one.left, none) {
        return false;
    }
    let cut = Numbers {
        x: u32::from(principal),
        y: NO_NUMBER,
    };
    if !fit(row.left, none, two.left, cut) {
        return false;
    }
    if !contains(one.right, principal) {
        return false;
    }
    if !covered_but(one.right, principal, row.right) {
        return false;
    }
    if !all_covered(two.right, row.right) {
        return false;
    }
    covered_by_either(row.right, one.right, two.right)
}
