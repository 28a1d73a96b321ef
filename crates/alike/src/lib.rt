// Whether one of some candidates is equal to a formula, where the atoms of each, with the formula's, have places of their own, at most 8 of
// them. The formulas under all of these are listed once and judged in 256 pairs at a time.
#![tactic(auto)]

mod blocks;
mod places;
mod steps;
pub mod survivors;
mod truths;
mod under;

ghost use Rattle.std.specs.Prelude.{◌*◌, ◌^◌, ◌≤◌, ◌<◌, length};
ghost use Rattle.format.specs.Tables.{node_width};
ghost use Rattle.alike.specs.Blocks.{truth_words};
ghost use Rattle.alike.specs.Under.{Room};
ghost use Rattle.alike.specs.Survivors.{most_places, AnyListed};
ghost use Rattle.alike.specs.Alike.{CandidatesMarked, Bounded, SomeAlike};

use crate::places::outer_places;
use crate::steps::{Steps, fill_steps};
use crate::survivors::{Question, any_alike, formula_at};
use crate::under::{list_under, mark};
use atomset::members_of;
use counts::limits::MOST_FORMULAS;
use pairs::past_largest;

// The most places of atoms.
const MOST_PLACES: usize = 8;

// The most formulas of a short list.
const FEW_LISTED: usize = 32;

// The words for the truths of a short list, and of any; and the numbers of their steps.
const FEW_WORDS: usize = 384;

const MOST_WORDS: usize = 12288;

const FEW_NUMBERS: usize = 96;

const MOST_NUMBERS: usize = 3072;

// Marks the formulas of the candidates.
fn mark_candidates(side: &[u16], candidates: u64, marks: &mut [u8])
    ensures { CandidatesMarked side.now candidates marks.old marks.new }
{
    for c in members_of(candidates) {
        mark(marks, formula_at(side, c), MOST_FORMULAS);
    }
}

// A number past the formula and all of the side, as far as a table of formulas goes.
fn end_of(own: usize, side: &[u16]) -> usize
    ensures { Bounded own side.now result }
{
    past_largest(side)
        .max(own.saturating_add(1))
        .min(MOST_FORMULAS)
}

// Whether one of the candidates holds in the same pairs of places as the formula, with a table of so many words for the truths of what
// is listed and so many numbers for its steps.
fn alike_in<const WORDS: usize, const NUMBERS: usize>(
    formulas: &[u16],
    list: &[u16],
    slots: &[u16],
    places: &[u64],
    outer: u64,
    question: Question<'_>,
) -> bool
    requires sizes { (WORDS < 2 ^ 60) × (NUMBERS < 2 ^ 60) }
    requires room { (outer < 2 ^ most_places) × (truth_words * length list.now ≤ WORDS) × (node_width * length list.now ≤ NUMBERS) }
    ensures { AnyListed formulas.now list.now slots.now places.now outer question.entry.own question.entry.side.now
        question.entry.candidates result }
{
    let mut table = [0u64; WORDS];
    let mut records = [0u16; NUMBERS];
    fill_steps(formulas, list, slots, &mut records);
    let steps = Steps {
        records: &records,
        count: list.len(),
        slots,
        places,
    };
    any_alike(steps, outer, question, &mut table)
}

// Whether one of the candidates is equal to the formula, where the atoms of both have places of their own; with room for the list.
fn alike_with(
    formulas: &[u16],
    places: &[u64],
    width: usize,
    question: Question<'_>,
    marks: &mut [u8],
    list: &mut [u16],
    slots: &mut [u16],
) -> bool
    requires { (width ≤ most_places) × Room marks.old list.old slots.old }
    ensures { SomeAlike formulas.now question.entry.own places.now width question.entry.side.now question.entry.candidates result }
{
    let end = end_of(question.own, question.side);
    mark(marks, question.own, MOST_FORMULAS);
    mark_candidates(question.side, question.candidates, marks);
    let n = list_under(formulas, end, marks, list, slots);
    let outer = outer_places(width);
    if n <= FEW_LISTED {
        return alike_in::<FEW_WORDS, FEW_NUMBERS>(
            formulas,
            &list[..n],
            slots,
            places,
            outer,
            question,
        );
    }
    alike_in::<MOST_WORDS, MOST_NUMBERS>(formulas, &list[..n], slots, places, outer, question)
}

// Whether one of the candidates is equal to the formula, where the atoms of both have places of their own below `width`; false where there
// are more places than 8.
pub fn some_alike(formulas: &[u16], places: &[u64], width: usize, question: Question<'_>) -> bool
    ensures { SomeAlike formulas.now question.entry.own places.now width question.entry.side.now question.entry.candidates result }
{
    if width > MOST_PLACES {
        return false;
    }
    let mut marks = [0u8; MOST_FORMULAS];
    let mut list = [0u16; MOST_FORMULAS];
    let mut slots = [0u16; MOST_FORMULAS];
    alike_with(
        formulas, places, width, question, &mut marks, &mut list, &mut slots,
    )
}
