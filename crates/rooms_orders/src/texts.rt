//! Different texts, each held once.

ghost use Rattle.std.specs.Prelude.{◌≡◌, map, OnOk};
ghost use Rattle.register.specs.Calls.{elem};
ghost use Rattle.rooms_orders.specs.Tried as O;

use std::alloc::{AllocError, Global};

// Whether a text is among those held.
fn is_held(texts: &[Vec<u8>], text: &[u8]) -> bool
    ensures { result ≡ elem text.now (map O.text_of texts.now) }
{
    for held in texts {
        if octets::order::equal(held.as_slice(), text) {
            return true;
        }
    }
    false
}

/// Adds a text, unless it is held.
pub fn add(alloc: Global, texts: &mut Vec<Vec<u8>>, text: &[u8]) -> Result<(), AllocError>
    ensures { OnOk result (O.texts_of texts.new ≡ O.with_text text.now (O.texts_of texts.old)) }
{
    if is_held(texts, text) {
        return Ok(());
    }
    let mut held = Vec::new(alloc);
    held.extend_from_slice(text)?;
    texts.push(held)?;
    Ok(())
}
