//! A record made of what it says.

ghost use Rattle.std.specs.Prelude.{◌≡◌, length, Some, None, cond};
ghost use Rattle.errors.specs.After.{after};
ghost use Rattle.errors.specs.Errors.{answer_number};
ghost use Rattle.record_values.specs.Written.{has_room, write_record};

use arrayvec::ArrayVec;
use errors::Error;
use record::Fields;
use record::layout::{COVARIANCE_NUMBERS, RECORD_SIZE};
use std::marker::Model;

/// What a record is to say, of lent parts of any length.
#[derive(Drop)]
pub struct Said<'a> {
    /// Transmit time, in nanoseconds.
    pub time: u64,
    /// In 1e-7 degree.
    pub latitude: i32,
    /// In 1e-7 degree.
    pub longitude: i32,
    /// In millimetres, where it is known.
    pub height: Option<i32>,
    pub message: &'a [u8],
    pub tags: &'a [u64],
    /// Which tags were used: bit i stands for the i-th.
    pub used: u32,
    pub models: &'a [u8],
    pub spec: u16,
    /// The bits of xx, xy, xz, yy, yz, zz.
    pub covariance: &'a [u64; COVARIANCE_NUMBERS],
}

impl<'a> Model for Said<'a> {
    ghost use Rattle.std.specs.Prelude.{◌≡◌, length};
    ghost use Rattle.record.specs.Value.{Value as Told};

    ghost Value = { Told };

    ghost view = { λ s. record { time = s.time; latitude = s.latitude; longitude = s.longitude; height = s.height; message = s.message.now; tags = s.tags.now; used = s.used; models = s.models.now; spec = s.spec; covariance = s.covariance.now } };

    ghost invariant = { λ s. length s.covariance.now ≡ 6 };
}

// What is said, where each list has room in a record.
fn fields_of(said: &Said) -> Option<Fields>
    ensures fields { result ≡ cond (has_room said.now) (Some said.now) None }
    ensures six { length said.now.covariance ≡ 6 }
{
    let mut fields = Fields {
        time: said.time,
        latitude: said.latitude,
        longitude: said.longitude,
        height: said.height,
        message: ArrayVec::new(),
        tags: ArrayVec::new(),
        used: said.used,
        models: ArrayVec::new(),
        spec: said.spec,
        covariance: *said.covariance,
    };
    fields.message.try_extend_from_slice(said.message).ok()?;
    fields.tags.try_extend_from_slice(said.tags).ok()?;
    fields.models.try_extend_from_slice(said.models).ok()?;
    Some(fields)
}

/// Writes the record that says this; `Error::NoRecord` where there is none, and then nothing is written.
pub fn write(said: &Said, out: &mut [u8; RECORD_SIZE]) -> Result<(), Error>
    ensures { after (answer_number result) out.new ≡ write_record said.now out.old }
{
    let Some(fields) = fields_of(said) else {
        return Err(Error::NoRecord);
    };
    let Some(record) = fields.record() else {
        return Err(Error::NoRecord);
    };
    *out = record;
    Ok(())
}
