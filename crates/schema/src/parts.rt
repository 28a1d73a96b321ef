// The parts of a principal formula as numbers of the file.
ghost use Rattle.std.specs.Prelude.{◌≡◌};
ghost use Rattle.schema.specs.Principal.{parts_if, split_in, parts_in};

use tables::records::{BOT, NOT, node};

// A principal formula of the form that the rule asks for, and its parts A and B.
#[derive(Clone, Copy)]
pub struct Parts {
    pub whole: u16,
    pub first: u16,
    pub second: u16,
}

// Formula `at` taken apart, if this is its word: into two operands, into one that is both, or into itself.
fn split(formulas: &[u16], whole: u16, at: u16, word: u16) -> Option<Parts>
    ensures { result ≡ parts_if (split_in formulas.now whole at word) }
{
    let n = node(formulas, usize::from(at));
    if n.word != word {
        return None;
    }
    let (first, second) = match word {
        BOT => (at, at),
        NOT => (n.first, n.first),
        _ => (n.first, n.second),
    };
    Some(Parts {
        whole,
        first,
        second,
    })
}

// The parts of formula `p`, if it is of the form: any formula, one of a word (0 to 5), or the negation of one (four more). An enum of
// forms would be no plainer: all but one are words, and a form is computed with.
pub(crate) fn parts_of(formulas: &[u16], form: u16, p: u16) -> Option<Parts>
    ensures { result ≡ parts_if (parts_in formulas.now form p) }
{
    if form == 1 {
        return Some(Parts {
            whole: p,
            first: p,
            second: p,
        });
    }
    if form < 6 {
        return split(formulas, p, p, form);
    }
    let n = node(formulas, usize::from(p));
    if n.word != NOT {
        return None;
    }
    split(formulas, p, n.first, form - 4)
}
