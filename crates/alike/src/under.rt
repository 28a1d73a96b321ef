// The formulas under some that are marked: these and all that they are made of, by their numbers from the largest down. A formula's
// parts have smaller numbers, so that one pass down the table finds them, and the list backwards has each formula after its parts. The
// slot of a listed formula is its place on the list.
ghost use Rattle.std.specs.Prelude.{◌≤◌};
ghost use Rattle.format.specs.Tables.{most_formulas};
ghost use Rattle.alike.specs.Under.{MarkedBefore, PartsMarked, Room, Listed};

use tables::records::{AND, NOT, narrow_place, node};

// Marks a formula, if it is before `end`.
pub(crate) fn mark(marks: &mut [u8], formula: usize, end: usize)
    ensures { MarkedBefore formula end marks.old marks.new }
{
    if formula >= end {
        return;
    }
    if formula >= marks.len() {
        return;
    }
    marks[formula] = 1;
}

// Marks the parts of a formula.
fn mark_parts(formulas: &[u16], formula: usize, marks: &mut [u8])
    ensures { PartsMarked formulas.now formula marks.old marks.new }
{
    let key = node(formulas, formula);
    if key.word < NOT {
        return;
    }
    mark(marks, usize::from(key.first), formula);
    if key.word < AND {
        return;
    }
    mark(marks, usize::from(key.second), formula);
}

// Lists the formulas under those that are marked, all of which are before `end`, notes their slots, and answers how many they are.
pub(crate) fn list_under(
    formulas: &[u16],
    end: usize,
    marks: &mut [u8],
    list: &mut [u16],
    slots: &mut [u16],
) -> usize
    requires { (end ≤ most_formulas) × Room marks.old list.old slots.old }
    ensures { Listed formulas.now end marks.old list.new slots.new result }
{
    let mut count = 0;
    for i in (0..end).rev() {
        if marks[i] == 1 {
            mark_parts(formulas, i, marks);
            list[count] = narrow_place(i);
            slots[i] = narrow_place(count);
            count += 1;
        }
    }
    count
}
