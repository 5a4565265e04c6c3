//! The text of the numbers.

ghost use Rattle.std.specs.Prelude.{◌≡◌, ◌≤◌, ◌++◌, length};
ghost use Rattle.octets.specs.Put.{Put};
ghost use Rattle.text.specs.Texts.{append};
ghost use Rattle.text.specs.Numbers.{decimal};
ghost use Rattle.monthly_numbers.specs.Text as T;
ghost use Rattle.monthly_numbers.specs.Kept.{numbers_in};

use crate::endings::Ended;
use crate::numbers::{Numbers, engine_numbers};
use engines::{Engine, MAX_ENGINE};
use register::layout::MAX_RECORDS;
use text::Text;

// A key and a number.
fn push_number(out: &mut Text, key: &str, number: u8)
    ensures { out.new ≡ append out.old (key.now ++ decimal number) }
{
    out.push_field(key, &(number as u64));
}

// The line of an engine.
fn push_line(out: &mut Text, engine: Engine, numbers: &Numbers)
    ensures { out.new ≡ append out.old (T.line engine numbers.now) }
{
    push_number(out, "engine=", engine.number());
    push_number(out, " held=", numbers.held);
    push_number(out, " ranked=", numbers.ranked);
    push_number(out, " dominated=", numbers.dominated);
    push_number(out, " refused=", numbers.refused);
    push_number(out, " other=", numbers.other);
    push_number(out, " uncounted=", numbers.uncounted);
    out.push_str("\n");
}

// A line for each engine.
fn push_lines(out: &mut Text, endings: &[Ended])
    requires { length endings.now ≤ MAX_RECORDS }
    ensures { out.new ≡ append out.old (T.lines (λ e. numbers_in e endings.now)) }
{
    for number in 0..MAX_ENGINE + 1 {
        if let Some(engine) = Engine::new(number) {
            push_line(out, engine, &engine_numbers(endings, engine));
        }
    }
}

/// A line for each engine at the start of a buffer; answers how many bytes.
pub fn write_lines(endings: &[Ended], out: &mut [u8]) -> usize
    requires few { length endings.now ≤ MAX_RECORDS }
    requires room { T.text_size ≤ length out.old }
    ensures text { Put out.old 0 (T.lines (λ e. numbers_in e endings.now)) result out.new }
    ensures fits { result ≤ T.text_size }
{
    let mut text = Text::new(out);
    push_lines(&mut text, endings);
    text.len()
}
