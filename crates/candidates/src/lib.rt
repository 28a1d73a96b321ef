// The candidates for B in a row of `swap`, which stand on a side: whether one holds in the same here-and-there interpretations as A.
// Candidates whose atoms can be given places of their own, at most 8 of them, are judged together.
#![tactic(auto)]

mod places;

ghost use Rattle.std.specs.Prelude.{ℕ, ◌^◌, ◌≤◌, ◌<◌, ◌↔◌, ◌≡◌, length, get_or};
ghost use Rattle.atomset.specs.AtomSet.{Member};
ghost use Rattle.alike.specs.Survivors.{most_places, Remain};
ghost use Rattle.alike.specs.Places.{Seated};
ghost use Rattle.candidates.specs.Candidates.{atoms_at, Few, SomeEqual, Grouped, GroupFound, CandidatesNumbered};
ghost use Rattle.refusals.specs.Refusals.{outcome};

use crate::places::{NO_PLACE, seat, seat_too};
use alike::some_alike;
use alike::survivors::{Question, formula_at};
use atomset::{
    contains, count, difference, first, insert, is_empty, members_of, single, without_first,
};
use counts::limits::MOST_ATOMS;
use known::index::note;
use refusals::Refusal;

// The most atoms that two formulas of `swap` have together.
const MOST_SWAPPED: usize = 8;

// A formula with its atoms as noted, and the side on which the candidates stand.
#[derive(Clone, Copy)]
struct Swapped<'a> {
    formulas: &'a [u16],
    notes: &'a [u64],
    own: usize,
    atoms: u64,
    side: &'a [u16],
}

impl<'a> Swapped<'a> {
    // The atoms of candidate c, with the formula's.
    fn atoms_with(self, c: usize) -> u64
        ensures { result ≡ atoms_at self.entry.notes.now self.entry.atoms self.entry.side.now c }
    {
        self.atoms | note(self.notes, formula_at(self.side, c))
    }
}

// All entries of a side as candidates, as far as a word goes.
fn all_of(side: &[u16]) -> u64
    ensures { (c : ℕ) → Member c result ↔ ((c < 64) × (c < length side.now)) }
{
    if side.len() >= 64 {
        return 0xFFFFFFFFFFFFFFFF;
    }
    (1u64 << side.len()) - 1
}

// The candidates that have few atoms together with the formula.
fn narrow_ones(swapped: Swapped<'_>, alive: u64) -> u64
    ensures { Remain (λ c. Few swapped.entry.notes.now swapped.entry.atoms (get_or swapped.entry.side.now c 0)) alive result }
{
    let mut kept = 0;
    for c in members_of(alive) {
        if count(swapped.atoms_with(c)) <= MOST_SWAPPED {
            kept = insert(kept, c);
        }
    }
    kept
}

// The pending candidates whose atoms, with the formula's, have places of their own as candidate c's have, once more atoms have places.
fn seat_group(swapped: Swapped<'_>, c: usize, pending: u64, width: usize, places: &mut [u64]) -> u64
    requires { (width ≤ most_places) × Member c pending
        × (atoms_at swapped.notes.now swapped.atoms swapped.side.now c < 2 ^ 64)
        × Seated places.old width (atoms_at swapped.notes.now swapped.atoms swapped.side.now c) }
    ensures { Grouped swapped.entry.notes.now swapped.entry.atoms swapped.entry.side.now c pending width places.old places.new result }
{
    let mut group = single(c);
    for d in members_of(pending) {
        if seat_too(swapped.atoms_with(d), width, places) {
            group = insert(group, d);
        }
    }
    group
}

// Judges candidate c, which has few atoms with the formula's own, and such pending ones as can be judged with it: these, if none of them
// is equal to the formula.
fn judge_group(swapped: Swapped<'_>, c: usize, pending: u64) -> Option<u64>
    requires { Member c pending × Few swapped.notes.now swapped.atoms (get_or swapped.side.now c 0) }
    ensures { GroupFound swapped.entry.formulas.now swapped.entry.notes.now swapped.entry.own swapped.entry.atoms swapped.entry.side.now c pending result }
{
    let mut places = [NO_PLACE; MOST_ATOMS];
    let set = swapped.atoms_with(c);
    let width = count(set);
    seat(set, &mut places);
    let group = seat_group(swapped, c, pending, width, &mut places);
    let question = Question {
        own: swapped.own,
        side: swapped.side,
        candidates: group,
    };
    if some_alike(swapped.formulas, &places, width, question) {
        return None;
    }
    Some(group)
}

// Whether one of the candidates, all of which have few atoms with the formula's own, is equal to it. The first group is judged before the
// loop: if `judge_group` were called at one place alone, the compiler would put it, with its tables, into the function that judges
// a line, and each line of a file would take longer.
fn some_equal(swapped: Swapped<'_>, narrow: u64) -> bool
    requires { (c : ℕ) → Member c narrow → Few swapped.notes.now swapped.atoms (get_or swapped.side.now c 0) }
    ensures { SomeEqual swapped.entry.formulas.now swapped.entry.notes.now swapped.entry.own swapped.entry.atoms swapped.entry.side.now narrow result }
{
    if is_empty(narrow) {
        return false;
    }
    let Some(begun) = judge_group(swapped, first(narrow), narrow) else {
        return true;
    };
    let mut pending = difference(narrow, begun);
    for c in members_of(without_first(narrow)) {
        if contains(pending, c) {
            let Some(group) = judge_group(swapped, c, pending) else {
                return true;
            };
            pending = difference(pending, group);
        }
    }
    false
}

// What a row of `swap` comes to, by the candidates for B that leave its sides right: no refusal if one with few atoms is equal to A, else
// too many atoms if one has more, else a wrong step.
pub fn candidates_number(
    formulas: &[u16],
    notes: &[u64],
    principal: u16,
    side: &[u16],
) -> Result<(), Refusal>
    ensures { CandidatesNumbered formulas.now notes.now principal side.now (outcome result) }
{
    let own = usize::from(principal);
    let swapped = Swapped {
        formulas,
        notes,
        own,
        atoms: note(notes, own),
        side,
    };
    let all = all_of(side);
    let narrow = narrow_ones(swapped, all);
    if some_equal(swapped, narrow) {
        return Ok(());
    }
    if is_empty(difference(all, narrow)) {
        return Err(Refusal::WrongStep);
    }
    Err(Refusal::TooManyAtoms)
}
