// A whole text judged: the lengths first, then line by line into the lent tables, which hold the accepted file in the end, or
// zeros. This is the call that the specification's demands 1 and 3 speak of.
#![tactic(auto)]

ghost use Rattle.std.specs.Prelude.{◌≡◌, false};
ghost use Rattle.format.specs.Tables.{too_short};
ghost use Rattle.run.specs.Lent.{lengths, held, Same, Zeros};
ghost use Rattle.judge.specs.Contract.{judged_by, JudgesFile};

use answers::{Accepted, Answer, finish};
use counts::Counts;
use counts::limits::LEAST_NOTES;
use refusals::Refusal;
use run::lent::Tables;
use run::run;
use state::Refused;

// The answer, and the counts of the file that the tables hold; of none where the text is refused.
#[repr(C)]
#[derive(Clone, Copy)]
pub struct Judged {
    pub answer: Answer,
    pub counts: Counts,
}

impl From<Result<Accepted, Refused>> for Judged {
    ghost from_gives = { λ end judged. judged ≡ judged_by end };

    fn from(end: Result<Accepted, Refused>) -> Judged {
        match end {
            Ok(accepted) => Judged {
                answer: Answer::accepted(accepted.line),
                counts: accepted.counts,
            },
            Err(refused) => Judged {
                answer: Answer::from(refused),
                counts: Counts::none(),
            },
        }
    }
}

// A text run into clear tables of full length, which are clear again if it is refused.
fn run_or_clear(text: &[u8], lent: &mut Tables) -> Judged
    requires { (too_short (lengths (held lent.old)) ≡ false) × Zeros (held lent.old) }
    ensures same { Same lent.old lent.new }
    ensures lengths { lengths (held lent.new) ≡ lengths (held lent.old) }
    ensures judges { JudgesFile text.now (lengths (held lent.old)) (held lent.new) result }
{
    let mut notes = [0u64; LEAST_NOTES];
    let ran = run(text, lent, &mut notes);
    let end: Result<Accepted, Refused> = finish(text, ran);
    if end.is_err() {
        lent.clear();
    }
    Judged::from(end)
}

// The answer to a text, with the file in the lent tables if it is accepted and zeros through all of them if it is refused.
// The tables may have any length and hold anything before.
pub fn judge(text: &[u8], lent: &mut Tables) -> Judged
    ensures same { Same lent.old lent.new }
    ensures lengths { lengths (held lent.new) ≡ lengths (held lent.old) }
    ensures judges { JudgesFile text.now (lengths (held lent.old)) (held lent.new) result }
{
    let short = lent.are_too_short();
    lent.clear();
    if short {
        return Judged::from(Err(Refused {
            refusal: Refusal::ShortTable,
            line: 0,
        }));
    }
    run_or_clear(text, lent)
}
