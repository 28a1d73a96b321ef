// The steps by which listed formulas are judged: their records, with the slots of their parts for the parts' numbers, so that slots are
// looked up once for all blocks. A negation has its part twice.
ghost use Rattle.std.specs.Prelude.{◌≡◌, get_or};
ghost use Rattle.alike.specs.Under.{last_part, step_of, StepsFilled};

use tables::records::{NOT, NodeRecord, node, put_node};

// The steps of so many listed formulas, with the slots of formulas and the places of atoms.
#[derive(Clone, Copy)]
pub(crate) struct Steps<'a> {
    pub records: &'a [u16],
    pub count: usize,
    pub slots: &'a [u16],
    pub places: &'a [u64],
}

// The entry of a list at a place, 0 past its end. Of the slots it is that of a formula.
pub(crate) fn entry_of(list: &[u16], at: usize) -> u16
    ensures { result ≡ get_or list.now at 0 }
{
    list.get(at).copied().unwrap_or(0)
}

// The last part of a formula: a negation has one alone.
fn last_part(key: NodeRecord) -> u16
    ensures { result ≡ last_part key }
{
    if key.word == NOT {
        return key.first;
    }
    key.second
}

// The step of a formula.
fn step_of(key: NodeRecord, slots: &[u16]) -> NodeRecord
    ensures { result ≡ step_of slots.now key }
{
    if key.word < NOT {
        return key;
    }
    NodeRecord {
        word: key.word,
        first: entry_of(slots, usize::from(key.first)),
        second: entry_of(slots, usize::from(last_part(key))),
    }
}

// Writes the steps of a list.
pub(crate) fn fill_steps(formulas: &[u16], list: &[u16], slots: &[u16], steps: &mut [u16])
    ensures { StepsFilled formulas.now list.now slots.now steps.old steps.new }
{
    for (k, &i) in list.iter().enumerate() {
        put_node(steps, k, step_of(node(formulas, usize::from(i)), slots));
    }
}
