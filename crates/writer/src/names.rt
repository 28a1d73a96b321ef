// The name of an atom, which the names table has as a place in the text.
ghost use Rattle.std.specs.Prelude.{◌≡◌};
ghost use Rattle.format.specs.Tables.{part};
ghost use Rattle.writer.specs.Names.{spelling};
ghost use Rattle.writer.specs.Putting.{Puts};

use crate::Writer;
use counts::limits::NAME_WIDTH;

// The part of the text at a place, empty where it does not lie inside. `part` in `tables` is this for 16-bit numbers:
// one function for both would need a second definition, over lists of any type.
fn piece(text: &[u8], start: u16, len: u16) -> &[u8]
    ensures { result.now ≡ part text.now start len }
{
    let from = usize::from(start);
    let to = from + usize::from(len);
    text.get(from..to).unwrap_or(&[])
}

fn name<'a>(text: &'a [u8], names: &[u16], atom: usize) -> &'a [u8]
    ensures { result.now ≡ spelling text.now names.now atom }
{
    if atom >= names.len() / NAME_WIDTH {
        return &[];
    }
    let at = NAME_WIDTH * atom;
    piece(text, names[at], names[at + 1])
}

impl<'a> Writer<'a> {
    pub fn put_name(&mut self, text: &[u8], names: &[u16], atom: usize)
        ensures { Puts (spelling text.now names.now atom) self.old self.new }
    {
        self.put(name(text, names, atom));
    }
}
