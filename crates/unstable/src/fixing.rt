// The formulas that fix a choice of S in `unst`: ~~p for p in S, and ~p for p in the rest.
ghost use Rattle.std.specs.Prelude.{◌≡◌, ◌&&◌, [], ◌∷◌, ℕ, eqb};
ghost use Rattle.atomset.specs.AtomSet.{has as hasAtom};
ghost use Rattle.sides.specs.Members.{AllRise};
ghost use Rattle.sides.specs.Deciding.{DecidesIf};
ghost use Rattle.shapes.specs.Shapes.{shape_in};
ghost use Rattle.unstable.specs.Fixing.{fixes_atom, Fixes};

use atomset::{contains as holds, is_empty, is_subset, single, union};
use shapes::{Shape, shape_of};
use sides::members::stands;

// The part of the set that is atom p alone.
fn only(set: u64, p: usize) -> u64
    ensures { (i : ℕ) → hasAtom result i ≡ (eqb i p && hasAtom set p) }
{
    if holds(set, p) {
        return single(p);
    }
    0
}

// The atom that formula x fixes, as a set: ~~p fixes p to be in S, ~p to be in the rest. Any other formula fixes none.
fn fixed_by(formulas: &[u16], x: u16, set: u64, others: u64) -> u64
    ensures { (i : ℕ) → hasAtom result i ≡ fixes_atom set others i (shape_in formulas.now x) }
{
    let s = shape_of(formulas, x);
    match s {
        Shape::Doubled(p) => only(set, p),
        Shape::Negated(p) => only(others, p),
        _ => 0,
    }
}

// Whether the second premise's left side is L with ~~p for p in S and ~p for p in the rest: what is not of L fixes an atom,
// all of L is met, and every atom is fixed. One pass with two cursors, exact for rising lists.
pub(crate) fn fixes(formulas: &[u16], side: &[u16], l: &[u16], set: u64, others: u64) -> bool
    ensures { DecidesIf (AllRise (side.now ∷ l.now ∷ []))
        (Fixes formulas.now side.now l.now set others) result }
{
    let mut fixed = 0;
    let mut j = 0;
    for &x in side {
        let by_x = fixed_by(formulas, x, set, others);
        fixed = union(fixed, by_x);
        if stands(l, j, x) {
            j += 1;
            continue;
        }
        if is_empty(by_x) {
            return false;
        }
    }
    if j < l.len() {
        return false;
    }
    is_subset(union(set, others), fixed)
}
