// The words of what a row rests on: its principal formula, and its premises, as the record of a row has them. Records
// are C's: they hold any numbers, and `ABSENT` for none.
ghost use Rattle.words.specs.Words.{principal_words, premise_words};
ghost use Rattle.writer.specs.Putting.{Puts};
ghost use Rattle.phrases.specs.Rows.{premises_from};
ghost use Rattle.phrases.specs.Sheets.{principal_in};

use crate::Sheet;
use tables::records::ABSENT;
use writer::Writer;

impl<'a> Sheet<'a> {
    pub fn put_principal(self, principal: u16, out: &mut Writer)
        ensures { Puts (principal_words (principal_in self.entry principal)) out.old out.new }
    {
        if principal == ABSENT {
            out.put(b"about no single formula");
        } else {
            out.put(b"about the formula ");
            self.put_formula(usize::from(principal), out);
        }
    }
}

// The first two premises, of which one or both may be absent.
pub fn put_premises(first: u16, second: u16, out: &mut Writer)
    ensures { Puts (premise_words (premises_from first second)) out.old out.new }
{
    if first == ABSENT {
        out.put(b"from no other row");
        return;
    }
    out.put(b"from row ");
    out.put_number(first);
    if second != ABSENT {
        out.put(b" and row ");
        out.put_number(second);
    }
}
