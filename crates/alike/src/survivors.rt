// Which of some candidates hold in the same pairs as one formula. A candidate is a place on a side, and a set of them one word. All pairs
// of the places 0 to 7 are gone through, 256 at a time: t runs through the parts of the places from 5 on that are in use, and h through
// the parts of t, two at a time. A candidate is dropped at the first blocks in which it differs.
ghost use Rattle.std.specs.Prelude.{ℕ, ◌^◌, ◌<◌, ◌↔◌, ◌≡◌, get_or};
ghost use Rattle.atomset.specs.AtomSet.{Member};
ghost use Rattle.alike.specs.Survivors.{SameHere, most_places, RoomFor, AlikeBelow, AlikeAll, AnyAlike};

use crate::blocks::{also_in, here_in};
use crate::steps::{Steps, entry_of};
use crate::truths::{Sets, judge_listed};
use atomset::{count, insert, is_empty, members_of};
use pairs::part_of;

// What is asked: whether one of the candidates, places on the side, is alike with formula `own`.
#[derive(Clone, Copy)]
pub struct Question<'a> {
    pub own: usize,
    pub side: &'a [u16],
    pub candidates: u64,
}

// The formula of a candidate, 0 where there is none.
pub fn formula_at(side: &[u16], candidate: usize) -> usize
    ensures { result ≡ get_or side.now candidate 0 }
{
    usize::from(entry_of(side, candidate))
}

// The candidates whose words are those of the formula.
fn still_alike(table: &[u64], slots: &[u16], question: Question<'_>) -> u64
    ensures { (c : ℕ) → Member c result ↔ (Member c question.entry.candidates × SameHere table.now slots.now question.entry.own
        (get_or question.entry.side.now c 0)) }
{
    let own = entry_of(slots, question.own);
    let here = here_in(table, own);
    let also = also_in(table, own);
    let mut kept = 0;
    for c in members_of(question.candidates) {
        let slot = entry_of(slots, formula_at(question.side, c));
        if (here_in(table, slot), also_in(table, slot)) == (here, also) {
            kept = insert(kept, c);
        }
    }
    kept
}

// The candidates that are alike with one t, in all its parts h.
fn alike_below(steps: Steps<'_>, t: u64, question: Question<'_>, table: &mut [u64]) -> u64
    requires { t < 2 ^ most_places }
    ensures { AlikeBelow steps.entry.records.now steps.entry.count steps.entry.slots.now steps.entry.places.now t question.entry.own question.entry.side.now
        question.entry.candidates table.old table.new result }
{
    let last = 1u64 << count(t);
    let mut kept = question.candidates;
    for n in (0..last).step_by(2) {
        if is_empty(kept) {
            return 0;
        }
        let next = part_of(t, (n + 1).min(last - 1));
        judge_listed(
            steps,
            Sets {
                h: part_of(t, n),
                g: next,
                t,
            },
            table,
        );
        kept = still_alike(
            table,
            steps.slots,
            Question {
                candidates: kept,
                ..question
            },
        );
    }
    kept
}

// The candidates that are alike in all pairs.
fn alike_all(steps: Steps<'_>, outer: u64, question: Question<'_>, table: &mut [u64]) -> u64
    requires { outer < 2 ^ most_places }
    ensures { AlikeAll steps.entry.records.now steps.entry.count steps.entry.slots.now steps.entry.places.now outer question.entry.own question.entry.side.now
        question.entry.candidates table.old result }
{
    let last = 1u64 << count(outer);
    let mut kept = question.candidates;
    for m in 0..last {
        if is_empty(kept) {
            return 0;
        }
        kept = alike_below(
            steps,
            part_of(outer, m),
            Question {
                candidates: kept,
                ..question
            },
            table,
        );
    }
    kept
}

// Whether one of the candidates is alike in all pairs.
pub(crate) fn any_alike(
    steps: Steps<'_>,
    outer: u64,
    question: Question<'_>,
    table: &mut [u64],
) -> bool
    requires { (outer < 2 ^ most_places) × RoomFor steps.count table.old }
    ensures { AnyAlike steps.entry.records.now steps.entry.count steps.entry.slots.now steps.entry.places.now outer question.entry.own question.entry.side.now
        question.entry.candidates result }
{
    !is_empty(alike_all(steps, outer, question, table))
}
