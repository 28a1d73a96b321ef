// The answer to a text, after the run over its complete lines.
#![tactic(auto)]

ghost use Rattle.std.specs.Prelude.{◌≡◌, length};
ghost use Rattle.answers.specs.Answers.{answer, refusing, Finishes};

use counts::Counts;
use refusals::Refusal;
use run::Ran;
use state::{CLAIMED, Refused};

// Refusal number and line; number 0 is acceptance, with a line that the call names: of a whole text the claim's.
#[repr(C)]
#[derive(Clone, Copy)]
pub struct Answer {
    pub number: u32,
    pub line: u32,
}

impl Answer {
    pub fn accepted(line: u32) -> Answer
        ensures { result ≡ answer 0 line }
    {
        Answer { number: 0, line }
    }
}

impl From<Refused> for Answer {
    ghost from_gives = { λ refused given. given ≡ refusing refused };

    fn from(refused: Refused) -> Answer {
        Answer {
            number: refused.refusal.number(),
            line: refused.line,
        }
    }
}

// A text that passed: the line that its acceptance names, and the counts of what the tables hold.
#[derive(Clone, Copy)]
pub struct Accepted {
    pub line: u32,
    pub counts: Counts,
}

// What the run was refused for; else bytes with no line feed after the complete lines are a bad line, and then a claim may be
// missing. A run may be refused with anything, a number that no refusal has among them.
pub fn finish<S, E: From<S> + From<Refused>>(
    text: &[u8],
    ran: Result<Ran, S>,
) -> Result<Accepted, E>
    ensures { Finishes ⟦<E as From<S>>⟧.from_gives ⟦<E as From<Refused>>⟧.from_gives
        (length text.now) ran result }
{
    let ran = ran?;
    let line = ran.line;
    if ran.at < text.len() {
        return Err(E::from(Refused {
            refusal: Refusal::BadLine,
            line,
        }));
    }
    if ran.state.stage != CLAIMED {
        return Err(E::from(Refused {
            refusal: Refusal::NoClaim,
            line,
        }));
    }
    Ok(Accepted {
        line: ran.state.claim.unwrap_or(0),
        counts: ran.state.counts,
    })
}
