//! What a mode answers: a status, and the text that is written with it.
ghost use Rattle.std.specs.Prelude.{◌≡◌, IfOk};
ghost use Rattle.ps_modes.specs.Texts.{fault_line};
ghost use Rattle.ps_modes.specs.declared.status.Status.TheVariants.{BadInput};

use crate::status::Status;
use crate::texts::fault_line;
use ps_text::FormFault;
use std::alloc::{AllocError, Global};

/// The status and the whole text of an answer, made before anything is written.
#[derive(Debug, Drop)]
pub struct Answer {
    pub status: Status,
    pub text: Vec<u8>,
}

/// The answer of this status and this line.
pub fn answer_line(alloc: Global, status: Status, line: &str) -> Result<Answer, AllocError>
    ensures status { IfOk result (λ answer. answer.status ≡ status) }
    ensures text { IfOk result (λ answer. answer.text.items ≡ line.now) }
{
    Ok(Answer {
        status,
        text: line.as_bytes().to_vec(alloc)?,
    })
}

/// The answer that names the first fault of a text.
pub fn fault_answer(alloc: Global, fault: &FormFault) -> Result<Answer, AllocError>
    ensures status { IfOk result (λ answer. answer.status ≡ BadInput) }
    ensures text { IfOk result (λ answer. answer.text.items ≡ fault_line fault.now) }
{
    Ok(Answer {
        status: Status::BadInput,
        text: fault_line(alloc, fault)?,
    })
}
