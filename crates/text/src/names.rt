// Names of atoms.
ghost use Rattle.std.specs.Prelude.{◌≡◌};
ghost use Rattle.format.specs.Text.{is_name};
ghost use Rattle.text.specs.Names.{name_byte};

fn is_name_byte(b: u8) -> bool
    ensures { result ≡ name_byte b }
{
    matches!(b, b'a'..=b'z' | b'0'..=b'9' | b'_')
}

// The field is a name: 1 to 24 of a-z, 0-9 and `_`, the first a letter.
pub fn is_name(field: &[u8]) -> bool
    ensures { result ≡ is_name field.now }
{
    if field.len() == 0 {
        return false;
    }
    if 24 < field.len() {
        return false;
    }
    if !field[0].is_ascii_lowercase() {
        return false;
    }
    field.iter().all(|b| is_name_byte(*b))
}
