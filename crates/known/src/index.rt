// An index by which an equal formula is found without a pass over the table: notes beside those of the formulas' atoms. The
// note of a slot is one past the last formula of that slot, and the note of a formula is one past the last formula before it
// of its slot; 0 where there is none. Equal formulas have one slot.
ghost use Rattle.std.specs.Prelude.{◌≡◌, ◌+◌, ◌≤◌, ◌<◌, get_or, set};
ghost use Rattle.tables.specs.Records.{record_numbers};
ghost use Rattle.known.specs.Index.{formula_notes, slot_of, entered, place_in, NodeFound};

use tables::records::{NodeRecord, node};

// The notes of the slots and of the formulas begin here, 1,024 of each.
const SLOTS: usize = 1024;

const FORMULAS: usize = 2048;

// The slot of a record: its numbers, mixed.
fn slot(key: NodeRecord) -> usize
    ensures { result ≡ slot_of (record_numbers key) }
{
    (usize::from(key.word) + 31 * usize::from(key.first) + 173 * usize::from(key.second)) % 1024
}

// A note, 0 outside of the table.
pub fn note(notes: &[u64], at: usize) -> u64
    ensures { result ≡ get_or notes.now at 0 }
{
    notes.get(at).copied().unwrap_or(0)
}

// Stores a note where the table has room for it: by its index, as after a write through `get_mut` a proof knows no more than the length.
pub fn put_note(notes: &mut [u64], at: usize, note: u64)
    ensures { notes.new ≡ set notes.old at note }
{
    if at < notes.len() {
        notes[at] = note;
    }
}

// The note of formula i, 0 where it is none of an index.
fn past_last(notes: &[u64], i: u64) -> u64
    ensures { (result ≤ i) × (i < 1024 → get_or notes.now (formula_notes + i) 0 ≤ i → result ≡ get_or notes.now (formula_notes + i) 0) }
{
    if 1024 <= i {
        return 0;
    }
    let after = note(notes, FORMULAS + i as usize);
    if i < after {
        return 0;
    }
    after
}

// The formula that has this record, by the index.
pub(crate) fn find_node(formulas: &[u16], notes: &[u64], key: NodeRecord) -> Option<usize>
    ensures { NodeFound formulas.now notes.now (record_numbers key) (place_in result) }
{
    let mut after = note(notes, SLOTS + slot(key));
    while 0 < after {
        let i = after - 1;
        let at = i as usize;
        if node(formulas, at) == key {
            return Some(at);
        }
        after = past_last(notes, i);
    }
    None
}

// Enters formula i into the index. Outside of it nothing changes.
pub(crate) fn enter_node(notes: &mut [u64], i: usize, key: NodeRecord)
    ensures { notes.new ≡ entered notes.old i (record_numbers key) }
{
    if 1024 <= i {
        return;
    }
    let at = SLOTS + slot(key);
    let before = note(notes, at);
    put_note(notes, FORMULAS + i, before);
    put_note(notes, at, i as u64 + 1);
}
