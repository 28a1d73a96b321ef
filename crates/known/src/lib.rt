// The one door by which a formula enters the tables: an equal one is found, or it is appended with what is known of it.
#![tactic(auto)]

mod atoms;
pub mod index;

ghost use Rattle.known.specs.Entering.{with_new, FormulaEntered};

use crate::atoms::record_atoms;
use crate::index::{enter_node, find_node, put_note};
use counts::limits::MOST_FORMULAS;
use tables::records::{NodeRecord, put_node};

// Why a formula is not entered: an equal one is held under this number, or there is no room for it.
#[derive(Clone, Copy, PartialEq, Eq)]
pub enum NoEntry {
    Held(usize),
    Full,
}

// Notes what is known of a formula that comes after `count` others, which gets their count as its number; it is for the caller to see
// that it stands in the table.
pub fn note_formula(
    formulas: &[u16],
    notes: &mut [u64],
    count: usize,
    key: NodeRecord,
) -> Result<usize, NoEntry>
    ensures { FormulaEntered formulas.now notes.old count key
        (with_new formulas.now count key result) notes.new result }
{
    if MOST_FORMULAS <= count {
        return Err(NoEntry::Full);
    }
    if let Some(i) = find_node(formulas, notes, key) {
        return Err(NoEntry::Held(i));
    }
    put_note(notes, count, record_atoms(notes, key));
    enter_node(notes, count, key);
    Ok(count)
}

// Enters a formula into tables that hold `count` of them.
pub fn enter_formula(
    formulas: &mut [u16],
    notes: &mut [u64],
    count: usize,
    key: NodeRecord,
) -> Result<usize, NoEntry>
    ensures { FormulaEntered formulas.old notes.old count key formulas.new notes.new result }
{
    let new = note_formula(formulas, notes, count, key)?;
    put_node(formulas, count, key);
    Ok(new)
}
