// Two sides merged in one pass with two cursors: whether each has what the other has, but for what is added to it. Equal stretches are
// passed several numbers at a time, since most of two sides is the same.
ghost use Rattle.std.specs.Prelude.{◌≡◌, true, [], ◌∷◌, ◌+◌, ◌≤◌, length};
ghost use Rattle.sides.specs.Deciding.{Decides, DecidesIf};
ghost use Rattle.sides.specs.Members.{AllRise};
ghost use Rattle.sides.specs.Merging.{IsAdded, RestAdded, SameFrom, Agree};

use crate::numbers::Numbers;

// Whether 8 numbers of both are the same, from i and j on. Every one is looked at, so that all can be compared at once.
fn block_same(a: &[u16], i: usize, b: &[u16], j: usize) -> bool
    requires { (i + 8 ≤ length a.now) × (j + 8 ≤ length b.now) }
    ensures { result ≡ true → SameFrom a.now i b.now j 8 }
{
    let mut same = true;
    for k in 0..8 {
        if a[i + k] != b[j + k] {
            same = false;
        }
    }
    same
}

// How many numbers in blocks of 8 are the same, from i and j on.
pub(crate) fn same_blocks(a: &[u16], i: usize, b: &[u16], j: usize) -> usize
    requires { (i ≤ length a.now) × (j ≤ length b.now) }
    ensures { SameFrom a.now i b.now j result }
{
    let mut n = 0;
    loop {
        if a.len() - i - n < 8 {
            return n;
        }
        if b.len() - j - n < 8 {
            return n;
        }
        if !block_same(a, i + n, b, j + n) {
            return n;
        }
        n += 8;
    }
}

// Whether a number is one of the added.
pub(crate) fn is_added(added: Numbers, z: u16) -> bool
    ensures { Decides (IsAdded added z) result }
{
    let n = u32::from(z);
    n == added.x || n == added.y
}

// Whether all numbers from a place on are added.
fn rest_added(side: &[u16], at: usize, added: Numbers) -> bool
    ensures { Decides (RestAdded side.now at added) result }
{
    // An iterator that skips the numbers before the place takes longer where no number is left, as is usual.
    for i in at..side.len() {
        if !is_added(added, side[i]) {
            return false;
        }
    }
    true
}

// Whether each of two sides has what the other has, but for what is added to that one. Two cursors: an iterator over each side is no
// plainer, since whole blocks of both are passed at once.
pub(crate) fn agree(a: &[u16], at_a: Numbers, b: &[u16], at_b: Numbers) -> bool
    ensures { DecidesIf (AllRise (a.now ∷ b.now ∷ [])) (Agree a.now at_a b.now at_b) result }
{
    let mut i = same_blocks(a, 0, b, 0);
    let mut j = i;
    while i < a.len() {
        if j >= b.len() {
            return rest_added(a, i, at_a);
        }
        let z = a[i];
        let w = b[j];
        if z == w {
            i += 1;
            j += 1;
            continue;
        }
        if z < w {
            if !is_added(at_a, z) {
                return false;
            }
            i += 1;
        } else {
            if !is_added(at_b, w) {
                return false;
            }
            j += 1;
        }
        let n = same_blocks(a, i, b, j);
        i += n;
        j += n;
    }
    rest_added(b, j, at_b)
}
