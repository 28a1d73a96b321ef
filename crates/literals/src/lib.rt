// The rules on literals: `def`, whose left side is atoms alone, and `xini`, whose sides are literals that do not meet. Both read
// the formulas of a side off the formulas table by their shapes; what they answer is defined over any table.
#![tactic(auto)]

ghost use Rattle.std.specs.Prelude.{◌≡◌, true, ◌↔◌, ℕ};
ghost use Rattle.atomset.specs.AtomSet.{Member};
ghost use Rattle.literals.specs.Literals.{atom_but, atoms_but, Adds, Collects, DefaultStep, InitialStep};

use atomset::{difference, insert, is_subset};
use shapes::{Shape, shape_of};
use sides::members::contains;
use sides::sequents::Sequent;

// The literals of a side: its p and ~p as sets of atoms, whether it has # and ~#, and whether any other formula.
#[derive(Clone, Copy)]
struct Literals {
    pub atoms: u64,
    pub negated: u64,
    pub falsum: bool,
    pub verum: bool,
    pub other: bool,
}

// The literals with one formula more.
fn with_literal(found: Literals, s: Shape) -> Literals
    ensures { Adds s found result }
{
    match s {
        Shape::Falsum => Literals {
            falsum: true,
            ..found
        },
        Shape::Atom(p) => Literals {
            atoms: insert(found.atoms, p),
            ..found
        },
        Shape::Verum => Literals {
            verum: true,
            ..found
        },
        Shape::Negated(p) => Literals {
            negated: insert(found.negated, p),
            ..found
        },
        _ => Literals {
            other: true,
            ..found
        },
    }
}

fn literals_of(formulas: &[u16], side: &[u16]) -> Literals
    ensures { Collects formulas.now side.now result }
{
    let mut found = Literals {
        atoms: 0,
        negated: 0,
        falsum: false,
        verum: false,
        other: false,
    };
    for &x in side {
        let s = shape_of(formulas, x);
        found = with_literal(found, s);
    }
    found
}

// Whether the two sets have no member in common.
fn disjoint(a: u64, b: u64) -> bool
    ensures { (result ≡ true) ↔ ((i : ℕ) → Member i a → Member i b → ⊥) }
{
    is_subset(a, difference(a, b))
}

// Whether the formula is an atom other than p.
fn atom_but(s: Shape, p: usize) -> bool
    ensures { result ≡ atom_but p s }
{
    match s {
        Shape::Atom(q) => q != p,
        _ => false,
    }
}

fn atoms_but(formulas: &[u16], side: &[u16], p: usize) -> bool
    ensures { result ≡ atoms_but formulas.now p side.now }
{
    side.iter().all(|&x| atom_but(shape_of(formulas, x), p))
}

// Whether a row L => R is an instance of `def` with this principal formula: ~p, p not among the atoms that L is.
pub fn default_step(formulas: &[u16], principal: u16, row: Sequent<'_>) -> bool
    ensures { DefaultStep formulas.now principal row.entry.left.now row.entry.right.now result }
{
    let s = shape_of(formulas, principal);
    let Shape::Negated(p) = s else {
        return false;
    };
    if !atoms_but(formulas, row.left, p) {
        return false;
    }
    contains(row.right, principal)
}

// Whether a row L;R is an instance of `xini`.
pub fn initial_step(formulas: &[u16], row: Sequent<'_>) -> bool
    ensures { InitialStep formulas.now row.entry.left.now row.entry.right.now result }
{
    let l = literals_of(formulas, row.left);
    let r = literals_of(formulas, row.right);
    if l.falsum || l.other || r.verum || r.other {
        return false;
    }
    if !disjoint(l.atoms, l.negated) {
        return false;
    }
    if !disjoint(l.atoms, r.atoms) {
        return false;
    }
    disjoint(l.negated, r.negated)
}
