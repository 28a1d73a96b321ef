// A whole text judged, and the rows of an accepted file told in words (paper 02, M-100).
#![tactic(auto)]

ghost use Rattle.std.specs.Prelude.{◌≡◌, length};
ghost use Rattle.run.specs.Lent.{held, lengths, Same};
ghost use Rattle.tell.specs.Contract.{sentences_of, PutsWords, Tells};

use answers::Answer;
use judge::judge;
use phrases::Sheet;
use refusals::Refusal;
use run::lent::Tables;
use sentences::Book;
use tables::records::narrow_place;
use writer::pad;

// The sentences of the first `count` rows of the lent tables, with zeros after them, and whether there is room; zeros alone
// where there is none.
fn put_words(text: &[u8], lent: &Tables, count: u16, words: &mut [u8]) -> bool
    ensures { PutsWords (sentences_of text.now (held lent.now) count) (length words.old) words.new result }
{
    let book = Book {
        sheet: Sheet {
            text,
            names: lent.names,
            formulas: lent.formulas,
        },
        rows: lent.rows,
        left: lent.left,
        right: lent.right,
    };
    let end = book.put_sentences(count, words);
    pad(words, end);
    end.is_some()
}

// The answer to a text. If it is accepted and there is room, the file is in the lent tables and the sentences of its
// rows are in the lent text, with zeros after each; else all of them are zero. They may have any length and hold
// anything before.
pub fn tell(text: &[u8], lent: &mut Tables, words: &mut [u8]) -> Answer
    ensures same { Same lent.old lent.new }
    ensures lengths { lengths (held lent.new) ≡ lengths (held lent.old) }
    ensures tells { Tells text.now (lengths (held lent.old)) (length words.old) (held lent.new) words.new result }
{
    let judged = judge(text, lent);
    let answer = judged.answer;
    if answer.number != 0 {
        pad(words, None);
        return answer;
    }
    let count = narrow_place(judged.counts.rows);
    if put_words(text, lent, count, words) {
        return answer;
    }
    lent.clear();
    Answer {
        number: Refusal::NoRoom.number(),
        line: 0,
    }
}
