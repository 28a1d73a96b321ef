// Whether sides are one set, each with something of its own added: the law of common sets. A side and what is added to it are no struct:
// the proofs need that the numbers of a side have 16 bits, which is known of a slice alone and not of one in a struct.
ghost use Rattle.std.specs.Prelude.{◌≡◌, [], ◌∷◌};
ghost use Rattle.equilibrium.specs.Meaning.{◌∈◌, ◌⊆◌};
ghost use Rattle.elk.specs.CommonSets.{Shared};
ghost use Rattle.sides.specs.Deciding.{Decides, DecidesIf};
ghost use Rattle.sides.specs.Members.{AllRise};
ghost use Rattle.sides.specs.Merging.{OnBoth};
ghost use Rattle.sides.specs.Numbers.{no_number, numbers_of, number_side};

use crate::members::contains;
use crate::merging::{agree, is_added};
use crate::numbers::{NO_NUMBER, Numbers};

// Whether the number, if it is one, is on the side.
fn on(side: &[u16], x: u32) -> bool
    ensures { Decides ((x ≡ no_number → ⊥) → x ∈ side.now) result }
{
    match u16::try_from(x) {
        Ok(z) => contains(side, z),
        Err(_) => x == NO_NUMBER,
    }
}

// Whether what is added is on the side.
pub fn holds(side: &[u16], added: Numbers) -> bool
    ensures { Decides (numbers_of added ⊆ side.now) result }
{
    if !on(side, added.x) {
        return false;
    }
    on(side, added.y)
}

// Whether some set gives both sides, each with what is added to it.
pub fn fit(a: &[u16], at_a: Numbers, b: &[u16], at_b: Numbers) -> bool
    ensures { DecidesIf (AllRise (a.now ∷ b.now ∷ []))
        (Shared (number_side a.now at_a ∷ number_side b.now at_b ∷ [])) result }
{
    if !holds(a, at_a) {
        return false;
    }
    if !holds(b, at_b) {
        return false;
    }
    agree(a, at_a, b, at_b)
}

// Whether a number that stands on one of two sides and is not added there stands on the other, too.
fn on_both(x: u32, b: &[u16], at_b: Numbers, c: &[u16], at_c: Numbers) -> bool
    ensures { Decides (OnBoth x b.now at_b c.now at_c) result }
{
    let Ok(z) = u16::try_from(x) else {
        return true;
    };
    match (contains(b, z), contains(c, z)) {
        (true, false) => is_added(at_b, z),
        (false, true) => is_added(at_c, z),
        _ => true,
    }
}

// Whether some set gives all three sides, each with what is added to it. Two that each fit the first differ, if at all, in what is added
// to the first.
pub fn three_fit(
    a: &[u16],
    at_a: Numbers,
    b: &[u16],
    at_b: Numbers,
    c: &[u16],
    at_c: Numbers,
) -> bool
    ensures { DecidesIf (AllRise (a.now ∷ b.now ∷ c.now ∷ []))
        (Shared (number_side a.now at_a ∷ number_side b.now at_b ∷ number_side c.now at_c ∷ [])) result }
{
    if !fit(a, at_a, b, at_b) {
        return false;
    }
    if !fit(a, at_a, c, at_c) {
        return false;
    }
    if !on_both(at_a.x, b, at_b, c, at_c) {
        return false;
    }
    on_both(at_a.y, b, at_b, c, at_c)
}
