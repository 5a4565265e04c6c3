//! Sets of small numbers as the bits of a mask: bit n stands for n.

ghost use Rattle.std.specs.Prelude.{◌≡◌, ◌<◌};
ghost use Rattle.octets.specs.Masks.{bit, with_bit, without_bit, bit_count};

/// Whether bit n is set.
pub fn has_u32(mask: u32, n: u32) -> bool
    requires { n < 32 }
    ensures { result ≡ bit mask n }
{
    (mask >> n) % 2 == 1
}

/// The mask with bit n set.
pub fn with_u32(mask: u32, n: u32) -> u32
    requires { n < 32 }
    ensures { result ≡ with_bit mask n }
{
    mask | (1 << n)
}

/// The mask with bit n clear.
pub fn without_u32(mask: u32, n: u32) -> u32
    requires { n < 32 }
    ensures { result ≡ without_bit mask n }
{
    if has_u32(mask, n) {
        mask - (1 << n)
    } else {
        mask
    }
}

/// How many bits are set.
pub fn count_u32(mask: u32) -> u32
    ensures { result ≡ bit_count 32 mask }
{
    u32::count_ones(mask)
}
