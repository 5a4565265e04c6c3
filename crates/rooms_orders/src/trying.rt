//! Orders of a list of calls, drawn at random.

ghost use Rattle.std.specs.Prelude.{◌≡◌, ◌+◌, ◌^◌, ◌<◌, map, IfOk, if◌then◌else◌};
ghost use Rattle.session_lines.specs.Gives.{call_of};
ghost use Rattle.session_lines.specs.Session.{at_start, calls_from};
ghost use Rattle.rooms_orders.specs.Tried.{Tried};

use crate::leaving::{add_board, add_listing};
use rand::seq::SliceRandom;
use rand_core::SeedableRng;
use rand_xoshiro::SplitMix64;
use session_lines::{Call, Lines};
use std::alloc::{AllocError, Global};

/// The seed of the orders where none is given.
pub const DEFAULT_SEED: u64 = 1;

/// What came out of so many orders.
#[derive(Clone, Copy)]
pub struct Outcome {
    /// How many different boards, as a manager sees them.
    pub boards: usize,
    /// How many different listings of the track.
    pub listings: usize,
    /// In how many orders a call on the register was refused as full.
    pub full: u64,
}

/// The calls of a session up to its first bad line.
pub fn calls_of(alloc: Global, input: &[u8]) -> Result<Vec<Call>, AllocError>
    ensures { IfOk result (λ calls. map call_of calls.items ≡ calls_from (at_start input.now)) }
{
    let mut calls = Vec::new(alloc);
    let mut lines = Lines::new(input);
    while let Ok(call) = lines.operation() {
        calls.push(call)?;
    }
    Ok(calls)
}

// How many orders have a call that is refused as full, with a further order.
fn with_order(full: u64, none_full: bool) -> u64
    requires { full < 2 ^ 63 }
    ensures { result ≡ full + (if none_full then 0 else 1) }
{
    if none_full { full } else { full + 1 }
}

/// Gives calls in so many random orders, drawn from a seed, each to a fresh register and to a fresh track with its shelf. The calls are left in the last order.
pub fn try_orders(
    alloc: Global,
    calls: &mut [Call],
    count: u32,
    seed: u64,
) -> Result<Outcome, AllocError>
    ensures tried { IfOk result (Tried (map call_of calls.old) count seed) }
    ensures one_board { IfOk result (λ o. 0 < count → o.full ≡ 0 → o.boards ≡ 1) }
{
    let mut random = SplitMix64::seed_from_u64(seed);
    let mut boards = Vec::new(alloc);
    let mut listings = Vec::new(alloc);
    let mut full = 0;
    for _order in 0..count {
        calls.shuffle(&mut random);
        add_listing(alloc, &mut listings, calls)?;
        let none_full = add_board(alloc, &mut boards, calls)?;
        full = with_order(full, none_full);
    }
    Ok(Outcome {
        boards: boards.len(),
        listings: listings.len(),
        full,
    })
}
