// The rules of the table: a conclusion and premises that each add a few formulas to one L and one R. A row is judged by its sides
// as numbers, for tables of any contents.
#![tactic(auto)]

mod additions;
mod parts;

ghost use Rattle.std.specs.Prelude.{◌≡◌, [], ◌∷◌, ◌+◌, ◌<◌};
ghost use Rattle.elk.specs.CommonSets.{Shared};
ghost use Rattle.sides.specs.Deciding.{DecidesIf};
ghost use Rattle.sides.specs.Members.{AllRise};
ghost use Rattle.schema.specs.Principal.{apart};
ghost use Rattle.schema.specs.Additions.{side_in};
ghost use Rattle.schema.specs.SchemaRows.{◌⊣◌, SchemaAnswer};

use additions::added;
use parts::{Parts, parts_of};
use rules::{STEP, rule_number};
use sides::fitting::{fit, holds, three_fit};
use sides::sequents::Sequent;

// The places of the conclusion's sides among what a rule adds; each premise's follow by two.
const LEFT: usize = 0;

const RIGHT: usize = 1;

// Whether some set gives one side, left or right, of a row that has no premises, with what the rule adds there. Each count of
// premises has a function of its own: these are small enough to be compiled into `schema_step`.
fn fits_alone(formulas: &[u16], rule: u16, p: Parts, place: usize, side: &[u16]) -> bool
    requires { place < 2 }
    ensures { DecidesIf (AllRise (side.now ∷ []))
        (Shared (side_in formulas.now (apart p) rule place side.now ∷ [])) result }
{
    let here = added(formulas, side, p, rule, place);
    holds(side, here)
}

// The same of a row and its one premise.
fn fits_one(formulas: &[u16], rule: u16, p: Parts, place: usize, side: &[u16], one: &[u16]) -> bool
    requires { place < 2 }
    ensures { DecidesIf (AllRise (side.now ∷ one.now ∷ []))
        (Shared (side_in formulas.now (apart p) rule place side.now
        ∷ side_in formulas.now (apart p) rule (place + 2) one.now ∷ [])) result }
{
    let here = added(formulas, side, p, rule, place);
    let at_one = added(formulas, one, p, rule, place + 2);
    fit(side, here, one, at_one)
}

// The same of a row and its two premises.
fn fits_two(
    formulas: &[u16],
    rule: u16,
    p: Parts,
    place: usize,
    side: &[u16],
    one: &[u16],
    two: &[u16],
) -> bool
    requires { place < 2 }
    ensures { DecidesIf (AllRise (side.now ∷ one.now ∷ two.now ∷ []))
        (Shared (side_in formulas.now (apart p) rule place side.now
        ∷ side_in formulas.now (apart p) rule (place + 2) one.now
        ∷ side_in formulas.now (apart p) rule (place + 4) two.now ∷ [])) result }
{
    let here = added(formulas, side, p, rule, place);
    let at_one = added(formulas, one, p, rule, place + 2);
    let at_two = added(formulas, two, p, rule, place + 4);
    three_fit(side, here, one, at_one, two, at_two)
}

// Whether a row with these sides is an instance of its rule, one of the table, with as many of the two premises as it has.
pub fn schema_step(
    formulas: &[u16],
    rule: u16,
    principal: u16,
    premises: usize,
    row: Sequent<'_>,
    one: Sequent<'_>,
    two: Sequent<'_>,
) -> bool
    ensures { SchemaAnswer formulas.now
        (record {
          rule = rule;
          principal = principal;
          count = premises;
          row = row.entry.left.now ⊣ row.entry.right.now;
          one = one.entry.left.now ⊣ one.entry.right.now;
          two = two.entry.left.now ⊣ two.entry.right.now;
        }) result }
{
    let form = u16::from(rule_number(rule, STEP));
    let Some(p) = parts_of(formulas, form, principal) else {
        return false;
    };
    match premises {
        0 => {
            if !fits_alone(formulas, rule, p, LEFT, row.left) {
                return false;
            }
            fits_alone(formulas, rule, p, RIGHT, row.right)
        }
        1 => {
            if !fits_one(formulas, rule, p, LEFT, row.left, one.left) {
                return false;
            }
            fits_one(formulas, rule, p, RIGHT, row.right, one.right)
        }
        _ => {
            if !fits_two(formulas, rule, p, LEFT, row.left, one.left, two.left) {
                return false;
            }
            fits_two(formulas, rule, p, RIGHT, row.right, one.right, two.right)
        }
    }
}
