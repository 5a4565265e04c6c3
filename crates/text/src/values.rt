//! Values that have a text.

ghost use Rattle.std.specs.Prelude.{◌≡◌, ◌≤◌, ◌++◌, ℕ, List, flat_map, length};
ghost use Rattle.octets.specs.Put.{Put};
ghost use Rattle.text.specs.Numbers.{decimal, signed_decimal, hex};
ghost use Rattle.text.specs.Decimals.{signed_with_decimals};
ghost use Rattle.text.specs.Heights.{metres};
ghost use Rattle.text.specs.declared.Text.{Text as Written};
ghost use Rattle.text.specs.Texts.{append};

use super::Text;

/// What has a text of its own, which can be appended.
pub trait Append {
    // the text of a value
    ghost text: { Self → List ℕ };

    fn append_to(&self, out: &mut Text)
        ensures { out.new ≡ append out.old (text self.now) };
}

// In decimal.
impl Append for u64 {
    ghost text = { decimal };

    fn append_to(&self, out: &mut Text) {
        out.push_u64(*self);
    }
}

// In decimal, with a minus where it is negative.
impl Append for i32 {
    ghost text = { signed_decimal };

    fn append_to(&self, out: &mut Text) {
        out.push_i32(*self);
    }
}

/// A height in millimetres, as its whole metres.
#[derive(Clone, Copy)]
pub struct Metres(pub i32);

impl Append for Metres {
    ghost text = { λ m. signed_decimal (metres m.0) };

    fn append_to(&self, out: &mut Text) {
        out.push_metres(self.0);
    }
}

/// A number in units of the last of so many decimals.
#[derive(Clone, Copy)]
pub struct Decimals<const PLACES: usize>(pub i32);

impl<const PLACES: usize> Append for Decimals<PLACES> {
    ghost text = { λ d. signed_with_decimals PLACES d.0 };

    fn append_to(&self, out: &mut Text) {
        out.push_decimals(PLACES, self.0);
    }
}

/// The lowest hex digits of a number, highest first.
#[derive(Clone, Copy)]
pub struct Hex<const DIGITS: usize>(pub u64);

impl<const DIGITS: usize> Append for Hex<DIGITS> {
    ghost text = { λ h. hex DIGITS h.0 };

    fn append_to(&self, out: &mut Text) {
        out.push_hex(DIGITS, self.0);
    }
}

impl<'a> Text<'a> {
    /// Appends the text of a value.
    pub fn push<T: Append>(&mut self, value: &T)
        ensures { self.new ≡ append self.old (T.text value.now) }
    {
        value.append_to(self);
    }

    /// A key and a value.
    pub fn push_field<T: Append>(&mut self, key: &str, value: &T)
        ensures { self.new ≡ append self.old (key.now ++ T.text value.now) }
    {
        self.push_str(key);
        value.append_to(self);
    }

    /// Values one after another.
    pub fn push_all<T: Append>(&mut self, values: &[T])
        ensures { self.new ≡ append self.old (flat_map T.text values.now) }
    {
        for value in values {
            value.append_to(self);
        }
    }
}

/// The text of a value into a buffer, from its beginning; answers how long it is.
pub fn write<T: Append>(out: &mut [u8], value: &T) -> usize
    ensures { length (T.text value.now) ≤ length out.old → Put out.old 0 (T.text value.now) result out.new }
{
    let mut text = Text::new(out);
    value.append_to(&mut text);
    text.len()
}
