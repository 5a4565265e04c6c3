//! What the words ask for where the first is `--orders`: one session in random orders.

ghost use Rattle.std.specs.Prelude.{◌≡◌, map, string_bytes};
ghost use Rattle.rooms_arguments.specs.Orders as O;

/// A session to be tried in random orders.
#[derive(Clone, Copy)]
pub struct Orders {
    /// The index of the word that says how many orders.
    pub count: usize,
    /// Of the word that is the seed, where it is given.
    pub seed: Option<usize>,
    /// Of the word that names the session's file.
    pub session: usize,
}

fn is_word(words: &[String], index: usize, text: &[u8]) -> bool
    ensures { result ≡ O.is_word (map string_bytes words.now) index text.now }
{
    match words.get(index) {
        Some(word) => word.as_bytes() == text,
        None => false,
    }
}

/// What `--orders N FILE` and `--orders N --seed S FILE` ask for; no other words ask for orders.
pub fn orders_asked(words: &[String]) -> Option<Orders>
    ensures { result ≡ O.orders_of (map string_bytes words.now) }
{
    if !is_word(words, 0, b"--orders") {
        return None;
    }
    if words.len() == 3 {
        return Some(Orders {
            count: 1,
            seed: None,
            session: 2,
        });
    }
    if words.len() == 5 && is_word(words, 2, b"--seed") {
        return Some(Orders {
            count: 1,
            seed: Some(3),
            session: 4,
        });
    }
    None
}
