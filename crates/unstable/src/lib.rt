// The rule `unst`: L => K and the refutation of (L,~~S,~S' ; E) give L => R. The atoms of L, S and its rest are words, and what is
// asked of the formulas is read off the formulas table by their shapes.
#![tactic(auto)]

mod fixing;
mod joins;

ghost use Rattle.std.specs.Prelude.{◌≡◌, ℕ};
ghost use Rattle.atomset.specs.AtomSet.{has as hasAtom};
ghost use Rattle.unstable.specs.Unstable.{occurs_on, UnstableStep};

use atomset::{difference, is_empty, union};
use fixing::fixes;
use joins::{choice_by, joins_middles};
use known::index::note;
use sides::members::same;
use sides::sequents::Sequent;

// The atoms of the formulas of a side.
fn atoms_of_side(notes: &[u64], side: &[u16]) -> u64
    ensures { (p : ℕ) → hasAtom result p ≡ occurs_on notes.now side.now p }
{
    let mut set = 0;
    for &x in side {
        set = union(set, note(notes, usize::from(x)));
    }
    set
}

// Whether a row L => R with premises of these sides is an instance of `unst`, whatever R.
pub fn unstable_step(
    formulas: &[u16],
    notes: &[u64],
    left: &[u16],
    one: Sequent<'_>,
    two: Sequent<'_>,
) -> bool
    ensures { UnstableStep formulas.now notes.now left.now one.entry.left.now
        one.entry.right.now two.entry.left.now two.entry.right.now result }
{
    if !same(left, one.left) {
        return false;
    }
    let &[k] = one.right else {
        return false;
    };
    let &[e] = two.right else {
        return false;
    };
    let v = atoms_of_side(notes, left);
    if is_empty(v) {
        return false;
    }
    let Some(set) = choice_by(formulas, k, v) else {
        return false;
    };
    if is_empty(set) {
        return false;
    }
    if !joins_middles(formulas, e, set) {
        return false;
    }
    fixes(formulas, two.left, left, set, difference(v, set))
}
