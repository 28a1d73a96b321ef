// What an accepted beginning has going besides its tables, handed in and back by value with each line.
#![tactic(auto)]

ghost use Rattle.std.specs.Prelude.{◌≡◌};
ghost use Rattle.state.specs.State.{start, passed_by, modelled_by, claimed_by, model_report, out_of_turn, not_next};

use counts::Counts;
use refusals::Refusal;

// The M line: its atoms as one word, and its number.
#[derive(Clone, Copy)]
pub struct ModelLine {
    pub atoms: u64,
    pub line: u32,
}

// The counts of what the tables hold; the stage, that is the kind of the last line; the M line, and the line of the claim, if there
// is one.
#[derive(Clone, Copy)]
pub struct State {
    pub counts: Counts,
    pub stage: u32,
    pub model: Option<ModelLine>,
    pub claim: Option<u32>,
}

// The stages, in their order.
pub const ATOMS: u32 = 0;

pub const FORMULAS: u32 = 1;

pub const ROWS: u32 = 2;

pub const MODELLED: u32 = 3;

pub const CLAIMED: u32 = 4;

// What a text is refused for, and the line that the refusal belongs to.
#[derive(Clone, Copy)]
pub struct Refused {
    pub refusal: Refusal,
    pub line: u32,
}

impl State {
    // The state before the first line.
    pub fn start() -> State
        ensures { result ≡ start }
    {
        State {
            counts: Counts::none(),
            stage: ATOMS,
            model: None,
            claim: None,
        }
    }

    // The state after a line of this stage that passed.
    pub fn passed(self, counts: Counts, stage: u32) -> State
        ensures { result ≡ passed_by self counts stage }
    {
        State {
            counts,
            stage,
            ..self
        }
    }

    // The state after an M line of these atoms that passed.
    pub fn modelled(self, atoms: u64, line: u32) -> State
        ensures { result ≡ modelled_by self atoms line }
    {
        State {
            stage: MODELLED,
            model: Some(ModelLine { atoms, line }),
            ..self
        }
    }

    // The line that a refusal of the model belongs to: the M line, if it was the last one, or the claim's own. After an M line there is
    // one; for any other state of that stage it is 0.
    pub fn model_report(self, line: u32) -> u32
        ensures { result ≡ model_report self line }
    {
        match self.model {
            _ if self.stage != MODELLED => line,
            Some(model) => model.line,
            None => 0,
        }
    }

    // The state after a claim that passed.
    pub fn claimed(self, line: u32) -> State
        ensures { result ≡ claimed_by self line }
    {
        State {
            stage: CLAIMED,
            claim: Some(line),
            ..self
        }
    }
}

// Whether a line of stage `next` may not follow: never back, and M and C come once.
#[tactic(auto, unfolding(crate::specs::State::out_of_turn))]
pub fn out_of_turn(stage: u32, next: u32) -> bool
    ensures { result ≡ out_of_turn stage next }
{
    next < stage || next == stage && MODELLED <= next
}

// Whether the kind of a line is out of order, or its number is not the next one.
#[tactic(auto, unfolding(crate::specs::State::not_next))]
pub fn out_of_order(stage: u32, next: u32, held: usize, number: u32) -> bool
    ensures { result ≡ not_next stage next held number }
{
    out_of_turn(stage, next) || number as usize != held
}
