// What a formula is, as far as the rules on literals and `unst` ask. The answer is by the records of the formulas table,
// whatever they hold; the law for tables that begin with the formulas of a good body stands in proofs/Shown.
#![tactic(auto)]

ghost use Rattle.std.specs.Prelude.{◌≡◌};
ghost use Rattle.shapes.specs.Shapes.{doubled_in, negated_in, ShapeRead};

use tables::records::{AND, ATOM, BOT, NOT, OR, node};

// #, p, ~#, ~p, ~~p, A&B and A|B, the atoms and formulas by number; anything else.
#[derive(Clone, Copy)]
pub enum Shape {
    Falsum,
    Atom(usize),
    Verum,
    Negated(usize),
    Doubled(usize),
    Conjunction(u16, u16),
    Disjunction(u16, u16),
    Other,
}

// The shape of the double negation of formula x.
fn doubled_shape(formulas: &[u16], x: u16) -> Shape
    ensures { result ≡ doubled_in formulas.now x }
{
    let n = node(formulas, usize::from(x));
    match n.word {
        ATOM => Shape::Doubled(usize::from(n.first)),
        _ => Shape::Other,
    }
}

// The shape of the negation of formula x.
fn negated_shape(formulas: &[u16], x: u16) -> Shape
    ensures { result ≡ negated_in formulas.now x }
{
    let n = node(formulas, usize::from(x));
    match n.word {
        BOT => Shape::Verum,
        ATOM => Shape::Negated(usize::from(n.first)),
        NOT => doubled_shape(formulas, n.first),
        _ => Shape::Other,
    }
}

// The shape of formula x.
pub fn shape_of(formulas: &[u16], x: u16) -> Shape
    ensures { ShapeRead formulas.now x result }
{
    let n = node(formulas, usize::from(x));
    match n.word {
        BOT => Shape::Falsum,
        ATOM => Shape::Atom(usize::from(n.first)),
        NOT => negated_shape(formulas, n.first),
        AND => Shape::Conjunction(n.first, n.second),
        OR => Shape::Disjunction(n.first, n.second),
        _ => Shape::Other,
    }
}
