// A row added to an open file, or tried first (paper 02, M-105). The open file is judged before the row, and nothing is written before
// the row has passed.
#![tactic(auto)]

mod reading;
mod trial;

ghost use Rattle.std.specs.Prelude.{◌≡◌};
ghost use Rattle.bodies.specs.Open.{four};
ghost use Rattle.adding.specs.Contract.{refused_with, added_with, Previews, Adds};

use answers::Answer;
use counts::Counts;
use counts::limits::MOST_ON_SIDE;
use drafts::store::store_row;
use trial::try_row;

// An open file, by the counts of what its tables hold: handed in and handed back with each row.
#[repr(C)]
#[derive(Clone, Copy)]
pub struct OpenFile {
    pub counts: Counts,
}

// The answer to a row, and the open file after it.
#[repr(C)]
#[derive(Clone, Copy)]
pub struct Added {
    pub answer: Answer,
    pub file: OpenFile,
}

impl OpenFile {
    // Unchanged, with the answer of a refusal.
    fn refused(self, answer: Answer) -> Added
        ensures { result ≡ refused_with self answer }
    {
        Added { answer, file: self }
    }

    // With one row more, of so many numbers on its sides.
    fn with_row(self, left: usize, right: usize) -> Added
        ensures { result ≡ added_with self left right }
    {
        let counts = self.counts;
        Added {
            answer: Answer::accepted(1),
            file: OpenFile {
                counts: counts.with_row(left, right),
            },
        }
    }

    // What adding the row of a text would answer.
    pub fn preview<'a>(
        self,
        text: &[u8],
        formulas: &[u16],
        rows: &[u16],
        left: &'a [u16],
        right: &'a [u16],
    ) -> Answer
        ensures { Previews (four formulas.now rows.now left.now right.now)
            self.counts text.now result }
    {
        let mut l = [0u16; MOST_ON_SIDE];
        let mut r = [0u16; MOST_ON_SIDE];
        let tried = try_row(
            text,
            formulas,
            rows,
            left,
            right,
            self.counts,
            &mut l,
            &mut r,
        );
        match tried {
            Ok(_) => Answer::accepted(1),
            Err(refused) => Answer::from(refused),
        }
    }

    // The row of a text after those of the open file; where it is refused, tables and counts stay as they were.
    pub fn add(
        self,
        text: &[u8],
        formulas: &[u16],
        rows: &mut [u16],
        left: &mut [u16],
        right: &mut [u16],
    ) -> Added
        ensures { Adds (four formulas.now rows.old left.old right.old)
            self.counts text.now
            (four formulas.now rows.new left.new right.new) result }
    {
        let counts = self.counts;
        let mut l = [0u16; MOST_ON_SIDE];
        let mut r = [0u16; MOST_ON_SIDE];
        let tried = try_row(text, formulas, rows, left, right, counts, &mut l, &mut r);
        match tried {
            Ok(draft) => {
                store_row(draft, &l, &r, rows, left, right, counts);
                self.with_row(draft.left.count, draft.right.count)
            }
            Err(refused) => self.refused(Answer::from(refused)),
        }
    }
}
