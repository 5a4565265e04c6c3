//! A fix that waits for the summary of a model that its record cites.

ghost use Rattle.std.specs.Prelude.{◌≡◌, ◌≤◌, ◌+◌, true, length};
ghost use Rattle.octets.specs.Put.{Put};
ghost use Rattle.track_shelf.specs.Layout.{place_size};
ghost use Rattle.track_shelf.specs.Memory.{waiting_in, waiting_bytes};
ghost use Rattle.track_shelf.specs.Steps.{place_holds};

use crate::layout::{ENGINE_AT, MODEL_AT, PLACE_SIZE, RECORD_AT};
use engines::Engine;
use record::Record;
use std::marker::Model;

/// A fix that waits: for which model, the engine that reported it, and its record.
#[derive(Drop)]
pub struct Waiting<'a> {
    pub model: u8,
    pub engine: Engine,
    pub report: Record<'a>,
}

impl<'a> Model for Waiting<'a> {
    ghost use Rattle.track_shelf.specs.Waiting as W;

    ghost Value = { W.Waiting };

    ghost view = { λ w. record { model = w.model; engine = w.engine; record_bytes = w.report.bytes.now } };
}

impl Default for Waiting<'_> {
    /// What an unused place of a list holds.
    fn default() -> Self {
        Waiting {
            model: 0,
            engine: Engine::new(0).unwrap(),
            report: Record::default(),
        }
    }
}

impl<'a> Waiting<'a> {
    /// The fix in a place.
    pub fn read(place: &'a [u8; PLACE_SIZE]) -> Waiting<'a>
        requires { place_holds place.now ≡ true }
        ensures { result ≡ waiting_in place.now }
    {
        let engine = place[ENGINE_AT];
        Waiting {
            model: place[MODEL_AT],
            engine: Engine::new(engine as u32).unwrap(),
            report: Record::of(place.split_at(RECORD_AT).1),
        }
    }

    /// Writes its bytes, and answers where they end.
    pub fn put(&self, out: &mut [u8], at: usize) -> usize
        requires { at + place_size ≤ length out.old }
        ensures { (result ≡ at + place_size) × Put out.old at (waiting_bytes self.now) result out.new }
    {
        let head = [self.model, self.engine.number()];
        let behind = octets::runs::put_bytes(out, at, &head);
        octets::runs::put_bytes(out, behind, self.report.bytes)
    }

    /// The same fix.
    pub fn again(&self) -> Waiting<'a>
        ensures { result ≡ self.now }
    {
        Waiting {
            model: self.model,
            engine: self.engine,
            report: self.report,
        }
    }
}
