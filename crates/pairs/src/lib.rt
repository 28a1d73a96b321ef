// The truth of formulas in a here-and-there pair (h,t) of sets of atoms, each one 64-bit word: noted in a table of bytes, in the
// order of the formulas table, so that a formula which others share is judged once. The pair (t,t) is judged first. A negation is
// as true in (h,t) as in (t,t), and an implication holds in (h,t) only if it does in (t,t).
#![tactic(auto)]

ghost use Rattle.std.specs.Prelude.{◌≡◌, Bool, ◌&&◌, ◌||◌, List, map, ℕ, eqb, ltb, get_or};
ghost use Rattle.atomset.specs.AtomSet.{has, members, set_of};
ghost use Rattle.pairs.specs.Bounds.{PastLargest};
ghost use Rattle.pairs.specs.Parts.{part};
ghost use Rattle.pairs.specs.Truths.{judged_by, digit, noted_at, NotedThere, NotedHere};

use atomset::{contains, insert, members_of};
use tables::records::{AND, ATOM, IMP, NOT, NodeRecord, OR, node};

// The note of a formula, 0 where there is none.
fn note_of(notes: &[u8], i: u16) -> u8
    ensures { result ≡ get_or notes.now i 0 }
{
    notes.get(usize::from(i)).copied().unwrap_or(0)
}

// Whether a formula is noted to hold.
pub fn holds(notes: &[u8], at: usize) -> bool
    ensures { result ≡ noted_at notes.now at }
{
    notes.get(at).is_some_and(|note| *note == 1)
}

// The same, as 0 or 1.
fn truth_of(notes: &[u8], at: usize) -> u8
    ensures { result ≡ digit (noted_at notes.now at) }
{
    u8::from(holds(notes, at))
}

// Whether an atom is in the set, as 0 or 1.
fn atom_in(set: u64, atom: u16) -> u8
    ensures { result ≡ digit (has set atom) }
{
    u8::from(contains(set, usize::from(atom)))
}

// The truth of the formula of a record, by the truths before it: `negation` is its truth if it is one, and an implication holds
// only where `allowed`. Both operands of a word with two are read before it is asked which one it is, which costs less than a branch
// for each.
fn judged(key: NodeRecord, set: u64, negation: u8, allowed: u8, before: &[u8]) -> u8
    ensures { (ts : List Bool) (n a : Bool) → before.now ≡ map digit ts → negation ≡ digit n → allowed ≡ digit a
        → result ≡ digit (judged_by set n a ts key) }
{
    match key.word {
        NOT => return negation,
        ATOM => return atom_in(set, key.first),
        _ => {}
    }
    let first = note_of(before, key.first);
    let second = note_of(before, key.second);
    match key.word {
        AND => first & second,
        OR => first | second,
        IMP => allowed & ((first ^ 1) | second),
        _ => 0,
    }
}

// Notes the truths of the first formulas in (t,t), as far as the count and the table of notes go.
pub fn fill_there(formulas: &[u16], count: usize, t: u64, there: &mut [u8])
    ensures { NotedThere formulas.now count t there.old there.new }
{
    for i in 0..count.min(there.len()) {
        let key = node(formulas, i);
        let negation = note_of(&there[..i], key.first) ^ 1;
        there[i] = judged(key, t, negation, 1, &there[..i]);
    }
}

// Notes the truths of the first formulas in (h,t), by those that are noted of (t,t).
pub fn fill_here(formulas: &[u16], count: usize, h: u64, there: &[u8], here: &mut [u8])
    ensures { NotedHere formulas.now count h there.now here.old here.new }
{
    for i in 0..count.min(here.len()) {
        let own = truth_of(there, i);
        here[i] = judged(node(formulas, i), h, own, own, &here[..i]);
    }
}

// The set with the atom, if the lowest digit of n is 1.
fn with_digit(set: u64, atom: usize, n: u64) -> u64
    ensures { (i : ℕ) → has result i ≡ (has set i || (has n 0 && (eqb i atom && ltb atom 64))) }
{
    if n % 2 == 1 {
        return insert(set, atom);
    }
    set
}

// Part n of a set: its j-th atom is in it if n has digit j.
pub fn part_of(set: u64, n: u64) -> u64
    ensures { result ≡ set_of (part n (members set)) }
{
    let mut taken = 0;
    let mut digits = n;
    for atom in members_of(set) {
        taken = with_digit(taken, atom, digits);
        digits /= 2;
    }
    taken
}

// One more than the largest number of a side, 0 if it is empty.
pub fn past_largest(side: &[u16]) -> usize
    ensures { PastLargest side.now result }
{
    let mut past = 0usize;
    for x in side {
        past = past.max(usize::from(*x) + 1);
    }
    past
}
