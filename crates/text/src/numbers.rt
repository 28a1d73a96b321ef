// Numbers, and the principal formula of a row.
ghost use Rattle.std.specs.Prelude.{◌≡◌, ◌≤◌, length};
ghost use Rattle.text.specs.Numbers.{NumberRead, PrincipalRead, number_at};

use parts::is_dash;

// The number that the run of digits from `at` on writes, and where it ends. A number is at most 99,999, so that a value never wraps.
pub(crate) fn number_at(field: &[u8], at: usize) -> Option<(u32, usize)>
    requires { at ≤ length field.now }
    ensures { result ≡ number_at field.now at }
{
    let mut value = 0u32;
    // The place is answered, too: a `for` would count it beside its own index.
    let mut end = at;
    while end < field.len() {
        let b = field[end];
        if !b.is_ascii_digit() {
            break;
        }
        if end - at == 5 {
            return None;
        }
        value = value * 10 + u32::from(b - b'0');
        end += 1;
    }
    if end == at {
        return None;
    }
    // A 0 may only come first where it stands alone.
    if end == at + 1 {
        return Some((value, end));
    }
    if field[at] == b'0' {
        return None;
    }
    Some((value, end))
}

// The number that a field writes; None where it is badly written.
pub fn read_number(field: &[u8]) -> Option<u32>
    ensures { NumberRead field.now result }
{
    let (n, end) = number_at(field, 0)?;
    if end < field.len() {
        return None;
    }
    Some(n)
}

// The principal formula that a field names, `Some(None)` for `-`; None where it is badly written.
pub fn read_principal(field: &[u8]) -> Option<Option<u32>>
    ensures { PrincipalRead field.now result }
{
    if is_dash(field) {
        return Some(None);
    }
    Some(Some(read_number(field)?))
}
