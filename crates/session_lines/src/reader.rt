//! Reading the lines.

ghost use Rattle.std.specs.Prelude.{◌≡◌, ◌≤◌, ◌+◌, ◌<◌, length, List, ℕ, take, drop, MatchOption, IfOk, OnErr};
ghost use Rattle.session_lines.specs.Operations as G;
ghost use Rattle.session_lines.specs.Lines as R;
ghost use Rattle.session_lines.specs.Gives.{Gives, lines_left, call_of};
ghost use Rattle.session_lines.specs.Keys.{key_of, value_in_words};

use crate::lines::{BadLine, Call, Due, Kind, Lines};
use crate::numbers;
use crate::values::{Covariance, Message, Models, Tags, Value};
use record::Fields;

impl Due {
    /// What the line begins with.
    pub fn key(self) -> &'static [u8]
        ensures { result.now ≡ key_of self }
    {
        match self {
            Due::Op => b"op=",
            Due::Engine => b"engine=",
            Due::Model => b"model=",
            Due::Spec => b"spec=",
            Due::Inputs => b"inputs=",
            Due::Time => b"time=",
            Due::Lat => b"lat=",
            Due::Lon => b"lon=",
            Due::Height => b"height=",
            Due::Message => b"message=",
            Due::Tags => b"tags=",
            Due::Used => b"used=",
            Due::Models => b"models=",
            Due::Cov => b"cov=",
        }
    }

    /// What the value of the line is to be, in words.
    pub fn words(self) -> &'static [u8]
        ensures { result.now ≡ value_in_words self }
    {
        match self {
            Due::Op => b"summary, convict or report",
            Due::Engine | Due::Model => b"a decimal number from 0 to 255 without leading zeros",
            Due::Spec => b"a decimal number from 0 to 65535 without leading zeros",
            Due::Used => b"a decimal number from 0 to 4294967295 without leading zeros",
            Due::Inputs => b"64 lowercase hex digits",
            Due::Time => b"a decimal number from 0 to 18446744073709551615 without leading zeros",
            Due::Lat | Due::Lon =>
                b"a decimal number from -2147483648 to 2147483647 without leading zeros",
            Due::Height =>
                b"the word none, or a decimal number from -2147483648 to 2147483647 without leading zeros",
            Due::Message => b"14 or 28 lowercase hex digits",
            Due::Tags =>
                b"1 to 24 decimal numbers from 0 to 18446744073709551615 without leading zeros, with commas between",
            Due::Models =>
                b"the word none, or 1 to 4 decimal numbers from 0 to 255 without leading zeros, with commas between",
            Due::Cov => b"96 lowercase hex digits, 16 for each of six numbers",
        }
    }
}

impl<'a> Lines<'a> {
    /// All lines of an input, of which the first has the number 1.
    pub fn new(input: &'a [u8]) -> Self
        ensures line { result.line ≡ 1 }
        ensures rest { result.rest.now ≡ input.now }
    {
        Lines {
            rest: input,
            line: 1,
        }
    }

    fn bad(&self, due: Due) -> BadLine
        ensures { result ≡ R.bad_line due (lines_left self.now) }
    {
        BadLine {
            line: self.line,
            due,
        }
    }

    // The text of the line due.
    #[tactic(auto, unfolding(crate::specs::Lines::text, crate::specs::Lines::cut))]
    fn text(&mut self, due: Due) -> Result<&'a [u8], BadLine>
        ensures { Gives (λ t. t.now) result self.new (R.text due (lines_left self.old)) }
    {
        let bad = self.bad(due);
        let rest = self.rest;
        let value = rest.strip_prefix(due.key()).ok_or(bad)?;
        let (text, rest) = numbers::split_once(value, b'\n').ok_or(bad)?;
        self.rest = rest;
        self.line += 1;
        Ok(text)
    }

    // The value of the line due.
    #[tactic(auto, unfolding(crate::specs::Lines::value))]
    fn value<T: Value>(&mut self, due: Due) -> Result<T, BadLine>
        ensures { Gives (λ v. v) result self.new (R.value due T.reading (lines_left self.old)) }
    {
        let bad = self.bad(due);
        let text = self.text(due)?;
        T::read(text).ok_or(bad)
    }

    #[tactic(auto, unfolding(crate::specs::Operations::conviction_at))]
    fn conviction(&mut self) -> Result<Call, BadLine>
        ensures { Gives call_of result self.new (G.conviction_at (lines_left self.old)) }
    {
        let engine = self.value(Due::Engine)?;
        Ok(Call::Conviction { engine })
    }

    #[tactic(auto, unfolding(crate::specs::Operations::summary_at))]
    fn summary(&mut self) -> Result<Call, BadLine>
        ensures { Gives call_of result self.new (G.summary_at (lines_left self.old)) }
    {
        let engine = self.value(Due::Engine)?;
        let model = self.value(Due::Model)?;
        let spec = self.value(Due::Spec)?;
        let inputs = self.value(Due::Inputs)?;
        Ok(Call::Summary {
            engine,
            model,
            spec,
            inputs,
        })
    }

    #[tactic(auto, unfolding(crate::specs::Operations::report_at, record::specs::Encoded::bytes_of))]
    fn report(&mut self) -> Result<Call, BadLine>
        ensures { Gives call_of result self.new (G.report_at (lines_left self.old)) }
    {
        let engine = self.value(Due::Engine)?;
        let time = self.value(Due::Time)?;
        let latitude = self.value(Due::Lat)?;
        let longitude = self.value(Due::Lon)?;
        let height = self.value(Due::Height)?;
        let Message(message) = self.value(Due::Message)?;
        let Tags(tags) = self.value(Due::Tags)?;
        let used = self.value(Due::Used)?;
        let Models(models) = self.value(Due::Models)?;
        let spec = self.value(Due::Spec)?;
        let Covariance(covariance) = self.value(Due::Cov)?;
        Ok(Call::Report {
            engine,
            fields: Fields {
                time,
                latitude,
                longitude,
                height,
                message,
                tags,
                used,
                models,
                spec,
                covariance,
            },
        })
    }

    // The operation whose first line is due.
    #[tactic(auto, unfolding(crate::specs::Operations::operation_at))]
    fn read_operation(&mut self) -> Result<Call, BadLine>
        ensures { Gives call_of result self.new (G.operation_at (lines_left self.old)) }
    {
        match self.value(Due::Op)? {
            Kind::Summary => self.summary(),
            Kind::Conviction => self.conviction(),
            Kind::Report => self.report(),
        }
    }

    /// The operation whose first line is due; its lines are taken off. Where one of them is bad, the first such is the error, and the reader
    /// stays as it was.
    pub fn operation(&mut self) -> Result<Call, BadLine>
        ensures call { Gives call_of result self.new (G.operation_at (lines_left self.old)) }
        ensures unchanged { OnErr result (lines_left self.new ≡ lines_left self.old) }
    {
        let mut lines = Lines {
            rest: self.rest,
            line: self.line,
        };
        let call = lines.read_operation()?;
        *self = lines;
        Ok(call)
    }
}
