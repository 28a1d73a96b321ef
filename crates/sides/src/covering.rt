// The subset tests that the rules of the calculus use, each one pass with a cursor for each side. Iterators over the sides are no plainer:
// each cursor goes on by a rule of its own, and both over whole blocks at once.
ghost use Rattle.std.specs.Prelude.{[], ◌∷◌, ◌++◌};
ghost use Rattle.equilibrium.specs.Meaning.{◌⊆◌};
ghost use Rattle.sides.specs.Covering.{Covered, Skips, FirstOutside};
ghost use Rattle.sides.specs.Deciding.{DecidesIf};
ghost use Rattle.sides.specs.Members.{AllRise};

use crate::members::stands;
use crate::merging::same_blocks;

// Whether every number of `a` other than x and y is in `b`. A number from 65,536 on is in no list: it stands for none.
pub fn covered(a: &[u16], x: u32, y: u32, b: &[u16]) -> bool
    ensures { DecidesIf (AllRise (a.now ∷ b.now ∷ [])) (Covered a.now x y b.now) result }
{
    let mut i = same_blocks(a, 0, b, 0);
    let mut j = i;
    while i < a.len() {
        let z = u32::from(a[i]);
        if z == x || z == y {
            i += 1;
            continue;
        }
        if j >= b.len() {
            return false;
        }
        let w = u32::from(b[j]);
        if w > z {
            return false;
        }
        if w < z {
            j += 1;
            let n = same_blocks(a, i, b, j);
            i += n;
            j += n;
            continue;
        }
        i += 1;
        j += 1;
    }
    true
}

// The first place from `at` on whose number is not below x.
fn skipped(side: &[u16], at: usize, x: u16) -> usize
    ensures { Skips side.now at x result }
{
    let mut i = at;
    while i < side.len() && side[i] < x {
        i += 1;
    }
    i
}

// Whether every number of `a` is in `b` or in `c`.
pub fn covered_by_either(a: &[u16], b: &[u16], c: &[u16]) -> bool
    ensures { DecidesIf (AllRise (a.now ∷ b.now ∷ c.now ∷ []))
        (a.now ⊆ b.now ++ c.now) result }
{
    let mut i = same_blocks(a, 0, b, 0);
    let mut j = i;
    let mut k = 0;
    while i < a.len() {
        let x = a[i];
        j = skipped(b, j, x);
        if stands(b, j, x) {
            i += 1;
            j += 1;
            let n = same_blocks(a, i, b, j);
            i += n;
            j += n;
            continue;
        }
        k = skipped(c, k, x);
        if stands(c, k, x) {
            i += 1;
            continue;
        }
        return false;
    }
    true
}

// The first place of `a` whose number is not in `b`; the length of `a` if all are.
pub fn first_outside(a: &[u16], b: &[u16]) -> usize
    ensures { FirstOutside a.now b.now result }
{
    let mut j = 0;
    for (i, &x) in a.iter().enumerate() {
        j = skipped(b, j, x);
        if !stands(b, j, x) {
            return i;
        }
    }
    a.len()
}
