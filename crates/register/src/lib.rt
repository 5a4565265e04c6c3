//! The register of one aircraft: every report and summary that was made, and the engines convicted, in
//! 37,256 lent bytes. What it holds does not depend on the order in which calls came.
//!
//! A `Register` is bytes that are one; its operations take any numbers and any slices, and say why they take a call or not.
//! report, summary and conviction do the same to any bytes (docs/REFERENCE.md, 'Operations'); an error changes no byte.
#![tactic(auto)]

ghost use Rattle.std.specs.Prelude.{◌≡◌, true};
ghost use Rattle.octets.specs.Masks.{bit};
ghost use Rattle.register.specs.Memory.{well_formed, decode};

use engines::{Engine, Signers};
use octets::words::u32_at;

pub mod claims;
pub mod convictions;
pub mod formed;
pub mod layout;
pub mod reports;
pub mod summaries;
pub mod view;

/// A register in lent bytes.
#[derive(Drop)]
pub struct Register<'a> {
    pub memory: &'a mut [u8],
    pub ghost formed: { well_formed memory.now ≡ true },
}

impl<'a> Register<'a> {
    /// The register that these bytes are known to be.
    pub fn of(memory: &'a mut [u8]) -> Self
        requires { well_formed memory.old ≡ true }
        ensures same_reference { result.memory.ghost_name ≡ memory.entry.ghost_name }
        ensures bytes { result.memory.now ≡ memory.old }
    {
        Register { memory }
    }

    /// Whether an engine is convicted.
    #[tactic(auto, using(crate::proofs::Opened::sized), unfolding(crate::specs::Memory::decode))]
    pub fn is_convicted(&self, engine: Engine) -> bool
        ensures { result ≡ bit (decode self.now.memory.now).convicted engine }
    {
        Signers::from_mask(u32_at(self.memory, layout::CONVICTED_AT)).contains(engine)
    }
}
