//! A cursor over the fields of a text.
ghost use Rattle.std.specs.Prelude.{◌≡◌, ◌==◌, [], ◌∷◌, position};
ghost use Rattle.std.specs.Option.{option_map_or};
ghost use Rattle.std.specs.Iterator.{YieldsFirstRef, item_count};
ghost use Rattle.fields.specs.Fields.{comma, parts, joined, left};

/// The fields of a text that are still to come: the parts between its commas, in order.
#[derive(Drop)]
pub struct Fields<'a> {
    /// What is left of the text, or `None` once its last field was taken.
    rest: Option<&'a [u8]>,
}

impl<'a> Fields<'a> {
    /// All fields of a text. A text with no comma is one field, and so is the empty text.
    pub fn of(text: &'a [u8]) -> Fields<'a>
        ensures all { left result ≡ parts text.now }
        ensures same { joined (left result) ≡ text.now }
    {
        Fields { rest: Some(text) }
    }
}

impl<'a> Iterator for Fields<'a> {
    type Item = &'a [u8];

    ghost next_gives = { YieldsFirstRef left };

    ghost remaining = { item_count left };

    /// Takes the next field, or answers `None` when none is left.
    fn next(&mut self) -> Option<&'a [u8]> {
        let (field, rest) = split_first_field(self.rest?);
        self.rest = rest;
        Some(field)
    }
}

/// The first field of a text, and what follows the comma behind it, or `None` where no comma stands behind it.
fn split_first_field(text: &[u8]) -> (&[u8], Option<&[u8]>)
    ensures { parts text.now ≡ result.0.now ∷ option_map_or (λ rest. parts rest.now) result.1 [] }
{
    match first_comma(text) {
        Some(end) => (&text[..end], Some(&text[end + 1..])),
        None => (text, None),
    }
}

/// The place of the first comma.
fn first_comma(text: &[u8]) -> Option<usize>
    ensures { result ≡ position (λ byte. byte == comma) text.now }
{
    text.iter().position(|byte| *byte == b',')
}
