// A beginning of a file opened: its lines judged into the lent tables, which hold what they come to, or zeros. Rows are then added
// by the counts that are handed out (M-105).
#![tactic(auto)]

ghost use Rattle.std.specs.Prelude.{◌≡◌, false, length};
ghost use Rattle.format.specs.Tables.{too_short};
ghost use Rattle.run.specs.Lent.{held, lengths, Same, Zeros};
ghost use Rattle.opening.specs.Contract.{closed_by, Opens};

use answers::Accepted;
use counts::limits::LEAST_NOTES;
use judge::Judged;
use refusals::Refusal;
use run::lent::Tables;
use run::{Ran, Stopped, run};
use state::Refused;

// What the run was refused for; else bytes with no line feed after the complete lines are a bad line, and success reports the count
// of the lines. No claim is asked for.
fn close(text: &[u8], ran: Result<Ran, Stopped>) -> Result<Accepted, Refused>
    ensures { result ≡ closed_by (length text.now) ran }
{
    let ran = ran?;
    if ran.at < text.len() {
        return Err(Refused {
            refusal: Refusal::BadLine,
            line: ran.line,
        });
    }
    Ok(Accepted {
        line: ran.line.saturating_sub(1),
        counts: ran.state.counts,
    })
}

// A beginning run into clear tables of full length, which are clear again if it is refused.
fn open_or_clear(text: &[u8], lent: &mut Tables) -> Judged
    requires { (too_short (lengths (held lent.old)) ≡ false) × Zeros (held lent.old) }
    ensures same { Same lent.old lent.new }
    ensures lengths { lengths (held lent.new) ≡ lengths (held lent.old) }
    ensures opens { Opens text.now (lengths (held lent.old)) (held lent.new) result }
{
    let mut notes = [0u64; LEAST_NOTES];
    let ran = run(text, lent, &mut notes);
    let end = close(text, ran);
    if end.is_err() {
        lent.clear();
    }
    Judged::from(end)
}

// The answer to a beginning, with the counts of its file and the file in the lent tables, or no counts and zeros through all of them
// if it is refused. The tables may have any length and hold anything before.
pub fn open(text: &[u8], lent: &mut Tables) -> Judged
    ensures same { Same lent.old lent.new }
    ensures lengths { lengths (held lent.new) ≡ lengths (held lent.old) }
    ensures opens { Opens text.now (lengths (held lent.old)) (held lent.new) result }
{
    let short = lent.are_too_short();
    lent.clear();
    if short {
        return Judged::from(Err(Refused {
            refusal: Refusal::ShortTable,
            line: 0,
        }));
    }
    open_or_clear(text, lent)
}
