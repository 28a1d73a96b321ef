// The formulas that join others in `unst`: K, off which S is read, and E, the excluded middles of S. Both are walked along the
// atoms of a word in rising order.
ghost use Rattle.std.specs.Prelude.{Some, ◌≡◌, ◌&&◌, ◌||◌, List, ◌∷◌, ℕ, eqb, ltb, get_or, drop};
ghost use Rattle.atomset.specs.AtomSet.{members};
ghost use Rattle.atomset.specs.AtomSet.{has as hasAtom};
ghost use Rattle.shapes.specs.Shapes.{shape_in};
ghost use Rattle.unstable.specs.Joins.{sign_number, sign_of, choice_in, Chooses, middle_in, middles_in};

use atomset::{first as lowest, insert, is_empty, without_first};
use shapes::{Shape, shape_of};

// How a formula has an atom p: as p itself or as ~p.
#[derive(Clone, Copy, PartialEq, Eq)]
enum Sign {
    Plain,
    Negated,
}

// How a formula of this shape has atom p, if it does.
fn sign_of(s: Shape, p: usize) -> Option<Sign>
    ensures { sign_number result ≡ sign_of s p }
{
    match s {
        Shape::Atom(q) => { if q == p { Some(Sign::Plain) } else { None } }
        Shape::Negated(q) => { if q == p { Some(Sign::Negated) } else { None } }
        _ => None,
    }
}

fn sign_in(formulas: &[u16], x: u16, p: usize) -> Option<Sign>
    ensures { sign_number result ≡ sign_of (shape_in formulas.now x) p }
{
    sign_of(shape_of(formulas, x), p)
}

// The set with p, unless its sign is that of ~p.
fn with_sign(set: u64, p: usize, sign: Sign) -> u64
    ensures { (i : ℕ) → hasAtom result i ≡ (hasAtom set i || (eqb (sign_number (Some sign)) 1 && (eqb i p && ltb p 64))) }
{
    match sign {
        Sign::Plain => insert(set, p),
        Sign::Negated => set,
    }
}

// S, read off K along the atoms of V in rising order, where K joins literals of all of them; V is not empty. A `for` over the atoms is
// no plainer here and in `joins_middles`: the last of them is not read off a conjunction.
pub(crate) fn choice_by(formulas: &[u16], k: u16, v: u64) -> Option<u64>
    ensures { (p : ℕ) (ps : List ℕ) → members v ≡ p ∷ ps → Chooses (choice_in formulas.now k p ps) result }
{
    let mut p = lowest(v);
    let mut rest = without_first(v);
    let mut at = k;
    let mut set = 0;
    while !is_empty(rest) {
        let s = shape_of(formulas, at);
        let Shape::Conjunction(x, y) = s else {
            return None;
        };
        let sign = sign_in(formulas, x, p)?;
        set = with_sign(set, p, sign);
        at = y;
        p = lowest(rest);
        rest = without_first(rest);
    }
    let sign = sign_in(formulas, at, p)?;
    Some(with_sign(set, p, sign))
}

// Whether formula x is p|~p.
fn excluded_middle(formulas: &[u16], x: u16, p: usize) -> bool
    ensures { result ≡ middle_in formulas.now x p }
{
    let s = shape_of(formulas, x);
    let Shape::Disjunction(i, j) = s else {
        return false;
    };
    if sign_in(formulas, i, p) != Some(Sign::Plain) {
        return false;
    }
    sign_in(formulas, j, p) == Some(Sign::Negated)
}

// Whether formula e joins p|~p for the atoms of S in rising order.
pub(crate) fn joins_middles(formulas: &[u16], e: u16, set: u64) -> bool
    ensures { result ≡ middles_in formulas.now e (get_or (members set) 0 64) (drop 1 (members set)) }
{
    let mut p = lowest(set);
    let mut rest = without_first(set);
    let mut at = e;
    while !is_empty(rest) {
        let s = shape_of(formulas, at);
        let Shape::Conjunction(x, y) = s else {
            return false;
        };
        if !excluded_middle(formulas, x, p) {
            return false;
        }
        at = y;
        p = lowest(rest);
        rest = without_first(rest);
    }
    excluded_middle(formulas, at, p)
}
