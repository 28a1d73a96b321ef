// A line with its fields, which travel together.
ghost use Rattle.std.specs.Prelude.{◌≡◌, ◌<◌, [], get_or};
ghost use Rattle.format.specs.Line.{most_fields};
ghost use Rattle.format.specs.Text.{fields_of};
ghost use Rattle.parts.specs.Parts.{Fielded};

use parts::{Fields, field, read_fields};

#[derive(Clone, Copy)]
pub struct Line<'a> {
    pub bytes: &'a [u8],
    pub fields: Fields,
    ghost fielded: { Fielded bytes.now fields },
}

impl<'a> Line<'a> {
    // A line, taken into its fields.
    pub(crate) fn read(bytes: &'a [u8]) -> Line<'a>
        ensures { result.bytes.now ≡ bytes.now }
    {
        Line {
            bytes,
            fields: read_fields(bytes),
        }
    }

    // One of the fields that a line may have; empty where this one has fewer.
    pub(crate) fn field(self, i: usize) -> &'a [u8]
        requires { i < most_fields }
        ensures { result.now ≡ get_or (fields_of self.entry.bytes.now) i [] }
    {
        field(self.bytes, self.fields, i)
    }
}
