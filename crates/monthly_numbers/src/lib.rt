//! The monthly numbers of a register: of each engine how many held records it signed, and what became of them. All transmissions are looked at, and not only those on
//! a board.
#![tactic(auto)]

ghost use Rattle.std.specs.Prelude.{◌≡◌, not, ◌≤◌};
ghost use Rattle.octets.specs.Put.{Put};
ghost use Rattle.register.specs.Memory.{well_formed};
ghost use Rattle.monthly_numbers.specs.Text.{text_of, printed, text_size};

use endings::Endings;
use engines::MAX_ENGINE;
use register::view::View;
use text::Text;

pub mod claims;
mod endings;
mod numbers;
mod texts;

pub use numbers::Numbers;

/// The most bytes of a line, with its line feed.
pub const LINE_SIZE: usize = 74;

/// The most bytes that are printed.
pub const TEXT_SIZE: usize = (MAX_ENGINE as usize + 1) * LINE_SIZE;

/// What was printed.
#[derive(Clone, Copy)]
pub struct Printed {
    /// How many bytes.
    pub len: usize,
    /// Whether the input is no register.
    pub refused: bool,
}

/// Writes the numbers of a register at the start of `out`; answers how many bytes.
pub fn write(register: &View<'_>, out: &mut [u8; TEXT_SIZE]) -> usize
    ensures text { Put out.old 0 (text_of register.now) result out.new }
    ensures fits { result ≤ text_size }
{
    let mut endings = Endings::new();
    endings::end(register, &mut endings);
    texts::write_lines(&endings, out)
}

/// Writes what is printed of any bytes at the start of `out`: the numbers of a register, or that the bytes are none.
pub fn print(memory: &[u8], out: &mut [u8; TEXT_SIZE]) -> Printed
    ensures text { Put out.old 0 (printed memory.now) result.len out.new }
    ensures fits { result.len ≤ text_size }
    ensures refused { result.refused ≡ not (well_formed memory.now) }
{
    match View::parse(memory) {
        Ok(register) => Printed {
            len: write(&register, out),
            refused: false,
        },
        Err(_) => Printed {
            len: octets::runs::put_bytes(out, 0, b"refused=1\n"),
            refused: true,
        },
    }
}
