// The atoms that occur in a formula, as one 64-bit word, out of those that are noted of the formulas before it.
ghost use Rattle.std.specs.Prelude.{◌≡◌, ℕ, get_or};
ghost use Rattle.atomset.specs.AtomSet.{has};
ghost use Rattle.known.specs.Known.{occurs_by};

use crate::index::note;
use atomset::{single, union};
use tables::records::{AND, ATOM, IMP, NOT, NodeRecord};

// The atoms of an earlier formula, none where there is no such formula.
fn note_at(notes: &[u64], i: u16) -> u64
    ensures { result ≡ get_or notes.now i 0 }
{
    note(notes, usize::from(i))
}

// The atoms of the formula with this record.
#[tactic(auto, using(atomset::proofs::Digits::has_zero), unfolding(crate::specs::Known::occurs_by))]
pub(crate) fn record_atoms(notes: &[u64], key: NodeRecord) -> u64
    ensures { (p : ℕ) → has result p ≡ occurs_by notes.now key p }
{
    match key.word {
        ATOM => single(usize::from(key.first)),
        NOT => note_at(notes, key.first),
        AND..=IMP => union(note_at(notes, key.first), note_at(notes, key.second)),
        _ => 0,
    }
}
