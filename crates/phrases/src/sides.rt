// The words of a side, as each calculus means it: an opening and then its formulas, or words of their own for an
// empty one.
ghost use Rattle.std.specs.Prelude.{◌≡◌};
ghost use Rattle.format.specs.Text.{bytes};
ghost use Rattle.words.specs.Words.{empty_side, side_opening};
ghost use Rattle.writer.specs.Putting.{Puts};
ghost use Rattle.phrases.specs.Kinds.{kind_of, side_of};
ghost use Rattle.phrases.specs.Sheets.{side_in};

use crate::Sheet;
use writer::Writer;

// The calculus of a row.
#[derive(Clone, Copy, Debug, PartialEq, Eq)]
pub enum Kind {
    Elk,
    Refutation,
}

// Antecedent and succedent.
#[derive(Clone, Copy, Debug, PartialEq, Eq)]
pub enum Side {
    Left,
    Right,
}

fn empty(kind: Kind, side: Side) -> &'static [u8]
    ensures { result.now ≡ bytes (empty_side (kind_of kind) (side_of side)) }
{
    match (kind, side) {
        (Kind::Elk, Side::Left) => b"if nothing is given",
        (Kind::Elk, Side::Right) => b"then there is no equilibrium model",
        (Kind::Refutation, Side::Left) =>
            b"there is a counter-case in here-and-there where nothing need hold",
        (Kind::Refutation, Side::Right) => b"and nothing need fail",
    }
}

fn opening(kind: Kind, side: Side) -> &'static [u8]
    ensures { result.now ≡ bytes (side_opening (kind_of kind) (side_of side)) }
{
    match (kind, side) {
        (Kind::Elk, Side::Left) => b"if these are all that is given: ",
        (Kind::Elk, Side::Right) =>
            b"then in every equilibrium model at least one of these alternatives holds: ",
        (Kind::Refutation, Side::Left) =>
            b"there is a counter-case in here-and-there where all of these hold: ",
        (Kind::Refutation, Side::Right) => b"and none of these holds: ",
    }
}

impl<'a> Sheet<'a> {
    pub fn put_side(self, kind: Kind, side: Side, formulas: &[u16], out: &mut Writer)
        ensures { Puts (side_in self.entry (kind_of kind) (side_of side) formulas.now) out.old out.new }
    {
        let Some((&first, rest)) = formulas.split_first() else {
            out.put(empty(kind, side));
            return;
        };
        out.put(opening(kind, side));
        self.put_formula(usize::from(first), out);
        for &i in rest {
            out.put(b", ");
            self.put_formula(usize::from(i), out);
        }
    }
}
