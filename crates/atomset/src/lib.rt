// Sets of atoms, each set one 64-bit word: the atom i is a member if the word's binary digit i is 1. An atom from 64 on is in no set.
// The contract of a function that returns a set says for every atom whether the set has it, or gives the members in rising order;
// either fixes the word.
// Nothing is asked of any argument.
#![tactic(auto)]

ghost use Rattle.std.specs.Prelude.{◌≡◌, ◌↔◌, true, ◌||◌, ◌&&◌, not, ℕ, eqb, ltb, length, get_or, drop};
ghost use Rattle.std.specs.Iterator.{YieldsFirst, item_count};
ghost use Rattle.atomset.specs.AtomSet.{has, Included, members};
ghost use Rattle.atomset.specs.Walk.{members_left};

pub fn contains(set: u64, atom: usize) -> bool
    ensures { result ≡ has set atom }
{
    if atom >= 64 {
        return false;
    }
    (set >> atom) & 1 == 1
}

// The set of one atom; the empty set if a word has no room for the atom.
pub fn single(atom: usize) -> u64
    ensures { (i : ℕ) → has result i ≡ (eqb i atom && ltb atom 64) }
{
    if atom >= 64 {
        return 0;
    }
    1u64 << atom
}

pub fn union(a: u64, b: u64) -> u64
    ensures { (i : ℕ) → has result i ≡ (has a i || has b i) }
{
    a | b
}

// The set with one atom more; unchanged if a word has no room for the atom.
pub fn insert(set: u64, atom: usize) -> u64
    ensures { (i : ℕ) → has result i ≡ (has set i || (eqb i atom && ltb atom 64)) }
{
    union(set, single(atom))
}

pub fn difference(a: u64, b: u64) -> u64
    ensures { (i : ℕ) → has result i ≡ (has a i && not (has b i)) }
{
    a & !b
}

// Whether `a` is included in `b`.
pub fn is_subset(a: u64, b: u64) -> bool
    ensures { (result ≡ true) ↔ Included a b }
{
    a & b == a
}

pub fn is_empty(set: u64) -> bool
    ensures { result ≡ eqb (length (members set)) 0 }
{
    set == 0
}

// How many members the set has.
pub fn count(set: u64) -> usize
    ensures { result ≡ length (members set) }
{
    set.count_ones() as usize
}

// The lowest member; 64 if there is none.
pub fn first(set: u64) -> usize
    ensures { result ≡ get_or (members set) 0 64 }
{
    set.trailing_zeros() as usize
}

// The set without its lowest member; the empty set stays empty.
pub fn without_first(set: u64) -> u64
    ensures { members result ≡ drop 1 (members set) }
{
    if set == 0 {
        return 0;
    }
    set & (set - 1)
}

// The members of a set that are still to come, the lowest first: what `members_of` gives a `for`.
#[derive(Clone, Copy)]
pub struct SetIter {
    rest: u64,
}

impl Iterator for SetIter {
    type Item = usize;

    ghost next_gives = { YieldsFirst members_left };

    ghost remaining = { item_count members_left };

    fn next(&mut self) -> Option<usize> {
        if is_empty(self.rest) {
            return None;
        }
        let atom = first(self.rest);
        self.rest = without_first(self.rest);
        Some(atom)
    }
}

// The members of a set, in rising order.
pub fn members_of(set: u64) -> SetIter
    ensures { members_left result ≡ members set }
{
    SetIter { rest: set }
}
