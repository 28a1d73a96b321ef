// What stands on a side.
ghost use Rattle.std.specs.Prelude.{◌≡◌, ◌&&◌, ◌||◌, ◌+◌, ◌≤◌, eqb, ltb, length, get_or, drop};
ghost use Rattle.format.specs.Text.{same_list};
ghost use Rattle.sides.specs.Members.{member};

// Whether one of the 8 numbers from `at` on is x. Every one is looked at, so that all can be compared at once.
fn block_has(side: &[u16], at: usize, x: u16) -> bool
    requires { at + 8 ≤ length side.now }
    ensures { member x (drop at side.now) ≡ (result || member x (drop (at + 8) side.now)) }
{
    let mut found = false;
    for i in at..at + 8 {
        if side[i] == x {
            found = true;
        }
    }
    found
}

// Whether the number is on the side at `from` or later, with one look at each.
fn contains_near(side: &[u16], from: usize, x: u16) -> bool
    ensures { result ≡ member x (drop from side.now) }
{
    for i in from..side.len() {
        if side[i] == x {
            return true;
        }
    }
    false
}

// Whether the number is on the side. The library's `contains` was tried, and takes longer in `fit`.
pub fn contains(side: &[u16], x: u16) -> bool
    ensures { result ≡ member x side.now }
{
    let mut i = 0;
    while i < side.len() {
        if side.len() - i < 8 {
            return contains_near(side, i, x);
        }
        if block_has(side, i, x) {
            return true;
        }
        i += 8;
    }
    false
}

// Whether two sides are equal as lists.
pub fn same(a: &[u16], b: &[u16]) -> bool
    ensures { result ≡ same_list a.now b.now }
{
    a == b
}

// Whether the number stands at the place.
pub fn stands(side: &[u16], at: usize, x: u16) -> bool
    ensures { result ≡ (ltb at (length side.now) && eqb (get_or side.now at 0) x) }
{
    at < side.len() && side[at] == x
}
