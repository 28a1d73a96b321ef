// The numbers of what a rule adds to a side.
ghost use Rattle.std.specs.Prelude.{◌≡◌, ◌<◌};
ghost use Rattle.schema.specs.Principal.{apart};
ghost use Rattle.schema.specs.Additions.{negation_in, part_in, added_in};

use crate::parts::Parts;
use rules::{PARTS, rule_number};
use sides::numbers::{MISSING, NO_NUMBER, Numbers};
use tables::records::{NOT, node};

// The number of `~A` on a side, where `a` is the number of A.
fn negation_on(formulas: &[u16], side: &[u16], a: u16) -> u32
    ensures { result ≡ negation_in formulas.now side.now a }
{
    for &x in side {
        let n = node(formulas, usize::from(x));
        if n.word == NOT && n.first == a {
            return u32::from(x);
        }
    }
    MISSING
}

// The number of one part on a side.
fn part_on(formulas: &[u16], side: &[u16], p: Parts, part: u8) -> u32
    ensures { result ≡ part_in formulas.now side.now (apart p) part }
{
    match part {
        0 => NO_NUMBER,
        1 => u32::from(p.whole),
        2 => u32::from(p.first),
        3 => u32::from(p.second),
        4 => negation_on(formulas, side, p.first),
        _ => negation_on(formulas, side, p.second),
    }
}

// The numbers of what the rule adds at a place (0 to 5: left and right of the conclusion, the first and the second premise).
pub(crate) fn added(formulas: &[u16], side: &[u16], p: Parts, rule: u16, place: usize) -> Numbers
    requires { place < 6 }
    ensures { result ≡ added_in formulas.now side.now (apart p) rule place }
{
    let at = PARTS + 2 * place;
    let one = rule_number(rule, at);
    let two = rule_number(rule, at + 1);
    Numbers {
        x: part_on(formulas, side, p, one),
        y: part_on(formulas, side, p, two),
    }
}
