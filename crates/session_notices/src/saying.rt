//! What is said of a session on standard error, and how it ends.

ghost use Rattle.std.specs.Prelude.{◌≡◌, IfOk};
ghost use Rattle.session_text.specs.Reasons.{reason_text};
ghost use Rattle.session_notices.specs.Told as T;

use crate::noting::notices;
use session_text::{REASON_SIZE, Refusal};
use std::alloc::{AllocError, Global};

/// How a session ends.
#[derive(Clone, Copy)]
pub enum Ending {
    /// Each operation is answered 0.
    Done,
    /// The session is refused.
    Refused,
    /// Some operation is answered otherwise than 0.
    Unanswered,
}

impl Ending {
    /// The exit status.
    pub fn status(self, strict: bool) -> u8
        ensures { result ≡ T.status_of self strict }
    {
        match self {
            Ending::Done => 0,
            Ending::Refused => 1,
            Ending::Unanswered => if strict { 4 } else { 0 },
        }
    }
}

/// What is said of a session, and how it ends.
#[derive(Drop)]
pub struct Said {
    /// For standard error: the reason of a refusal, else the notices.
    pub text: Vec<u8>,
    pub ending: Ending,
}

// What is said of a session that is refused.
fn reason(alloc: Global, input: &[u8], refusal: Refusal) -> Result<Vec<u8>, AllocError>
    ensures { IfOk result (λ v. v.items ≡ reason_text input.now refusal) }
{
    let mut text = [0u8; REASON_SIZE];
    let n = refusal.write_reason(input, &mut text);
    Vec::from_slice(alloc, &text[..n])
}

// How a session with these notices ends.
fn ending_by(notices: &[u8]) -> Ending
    ensures { result ≡ T.ending_with notices.now }
{
    if notices.is_empty() {
        Ending::Done
    } else {
        Ending::Unanswered
    }
}

/// What is said of a session that was refused so, or was not, and how it ends.
pub fn told(alloc: Global, input: &[u8], refused: Option<Refusal>) -> Result<Said, AllocError>
    ensures text { IfOk result (λ t. t.text.items ≡ T.said_of input.now refused) }
    ensures ending { IfOk result (λ t. t.ending ≡ T.ended_as input.now refused) }
{
    match refused {
        Some(refusal) => Ok(Said {
            text: reason(alloc, input, refusal)?,
            ending: Ending::Refused,
        }),
        None => {
            let text = notices(alloc, input)?;
            let ending = ending_by(&text);
            Ok(Said { text, ending })
        }
    }
}
