// A name found among the first records of the names table. A record that does not lie inside its table is none of them.
ghost use Rattle.std.specs.Prelude.{◌≡◌};
ghost use Rattle.format.specs.Text.{same_list};
ghost use Rattle.format.specs.Tables.{name_width};
ghost use Rattle.tables.specs.Names.{first_records, spelled, NameFound};

use counts::limits::NAME_WIDTH;

// Whether two byte strings are equal: names, and the words of rules in `keywords`.
pub fn same_bytes(a: &[u8], b: &[u8]) -> bool
    ensures { result ≡ same_list a.now b.now }
{
    a.len() == b.len() && a.iter().zip(b).all(|(x, y)| x == y)
}

// Whether the text has exactly this name at a place.
fn spells(text: &[u8], start: u16, len: u16, name: &[u8]) -> bool
    ensures { result ≡ spelled text.now start len name.now }
{
    let from = usize::from(start);
    text.get(from..from + usize::from(len))
        .is_some_and(|part| same_bytes(part, name))
}

// Which of the first `count` names is this one.
pub fn find_name(text: &[u8], names: &[u16], count: usize, name: &[u8]) -> Option<usize>
    ensures { NameFound text.now name.now (first_records name_width count names.now) result }
{
    for i in 0..count.min(names.len() / NAME_WIDTH) {
        let at = NAME_WIDTH * i;
        if spells(text, names[at], names[at + 1], name) {
            return Some(i);
        }
    }
    None
}
