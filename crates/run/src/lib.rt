// The complete lines of a text judged one after the other, each into the lent tables, up to the first one that is refused.
#![tactic(auto)]

pub mod lent;

ghost use Rattle.std.specs.Prelude.{◌≡◌};
ghost use Rattle.run.specs.Lent.{held_with, Same};
ghost use Rattle.run.specs.Running.{RunOver};

use crate::lent::Tables;
use counts::limits::MOST_BYTES;
use lines::step_line;
use parts::find;
use refusals::Refusal;
use state::{Refused, State};

// All complete lines have passed: how many they are and 1, the place after the last one, and the state there.
#[derive(Clone, Copy)]
pub struct Ran {
    pub line: u32,
    pub at: usize,
    pub state: State,
}

// What a text is refused for, and the place and the state before the line at which that was seen.
#[derive(Clone, Copy)]
pub struct Stopped {
    pub refused: Refused,
    pub at: usize,
    pub state: State,
}

impl From<Stopped> for Refused {
    ghost from_gives = { λ stopped refused. refused ≡ stopped.refused };

    fn from(stopped: Stopped) -> Refused {
        stopped.refused
    }
}

// The tables are to be clear and of full length, and so are the notes on the formulas. A text of more than 65,536
// bytes is not read: its lines could be more than a count of them holds.
pub fn run(text: &[u8], lent: &mut Tables, notes: &mut [u64]) -> Result<Ran, Stopped>
    ensures same { Same lent.old lent.new }
    ensures over { RunOver text.now result (held_with lent.old notes.old) (held_with lent.new notes.new) }
{
    let mut state = State::start();
    let mut at = 0;
    if MOST_BYTES < text.len() {
        let refused = Refused {
            refusal: Refusal::TooLong,
            line: 0,
        };
        return Err(Stopped { refused, at, state });
    }
    let mut line = 1;
    let mut end = find(text, at, b'\n');
    // A while: the tables keep where in the text a name stands, so a line is judged by its place, which no iterator of lines gives.
    while end < text.len() {
        let stepped = step_line(
            text,
            at,
            end,
            line,
            lent.names,
            lent.formulas,
            notes,
            lent.rows,
            lent.left,
            lent.right,
            state,
        );
        match stepped {
            Ok(next) => state = next,
            Err(refused) => return Err(Stopped { refused, at, state }),
        }
        at = end + 1;
        line += 1;
        end = find(text, at, b'\n');
    }
    Ok(Ran { line, at, state })
}
