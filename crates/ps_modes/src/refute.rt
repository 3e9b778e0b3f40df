//! The mode `refute`: whether the multipliers of the input refute its rows.
ghost use Rattle.std.specs.Prelude.{◌≡◌, ℕ, List, [], ◌∷◌, length, IfOk, IfSome};
ghost use Rattle.std.specs.Io.KnownBytes.{Appends};
ghost use Rattle.ps_modes.specs.Inner.Judged.{Judged};
ghost use Rattle.ps_modes.specs.Owes.{IsShort};
ghost use Rattle.ps_modes.specs.Promise.{Answers, HasCauses};
ghost use Rattle.ps_modes.specs.Refute.{IsRefusedInput, Owed, Refusal, SaysYes, SaysNo};
ghost use Rattle.ps_modes.specs.Status.{code, Exactly, IsOneOf};
ghost use Rattle.ps_modes.specs.declared.status.Status.TheVariants.{Holds, Fails, BadInput, ReadFault, WriteFault, NoMemory};

use crate::answer::{Answer, answer_line, fault_answer};
use crate::frame::answer_input;
use crate::judge::Judge;
use crate::status::Status;
use crate::texts::{NO, PAST, YES};
use ps_farkas::refutes;
use ps_io::{Sink, Source};
use ps_rows::{Claim, read_rows};
use ps_text::FormEnd;
use std::alloc::{AllocError, Global};

/// Reads the source to its end, and writes `yes` or `no`, or the line that refuses the input. Returns always.
///
/// The answer is made whole before anything is written.
pub fn refute_run<S: Source, K: Sink>(alloc: Global, source: &mut S, sink: &mut K) -> u8
    ensures statuses { IsOneOf result
        (Holds ∷ Fails ∷ BadInput ∷ ReadFault ∷ WriteFault ∷ NoMemory ∷ []) }
    ensures yes { IfSome (S.left source.old)
        (λ input. Exactly result Holds (IsShort input × SaysYes input)) }
    ensures yes_text { result ≡ code Holds
        → Appends (K.written sink.old) (K.written sink.new) YES.now }
    ensures no { IfSome (S.left source.old)
        (λ input. Exactly result Fails (IsShort input × SaysNo input)) }
    ensures no_text { result ≡ code Fails
        → Appends (K.written sink.old) (K.written sink.new) NO.now }
    ensures refused { IfSome (S.left source.old)
        (λ input. Exactly result BadInput (IsRefusedInput input)) }
    ensures refused_text { result ≡ code BadInput → IfSome (S.left source.old) (λ input.
        (text : List ℕ) × Refusal input text
        × Appends (K.written sink.old) (K.written sink.new) text) }

    // What every mode promises.
    ensures answers { Answers Owed (S.left source.old) (K.written sink.old) (K.written sink.new)
        result }
    ensures causes { HasCauses
        (record {
          left = S.left source.old;
          left_after = S.left source.new;
          faults = S.faults source.old;
          faults_after = S.faults source.new;
          failed_after = S.failed source.new;
        })
        (record {
          written = K.written sink.old;
          written_after = K.written sink.new;
          faults = K.faults sink.old;
          faults_after = K.faults sink.new;
        })
        result }
{
    answer_input(alloc, &Refute, source, sink)
}

/// Answers rows and multipliers.
struct Refute;

impl Judge for Refute {
    ghost owed = { λ _. Owed };

    fn judge(&self, alloc: Global, input: &[u8]) -> Result<Answer, AllocError> {
        match read_rows(alloc, input, 1) {
            Ok(claim) => judge_claim(alloc, &claim),
            Err(FormEnd::Fault(fault)) => fault_answer(alloc, &fault),
            Err(FormEnd::Memory(end)) => Err(end),
        }
    }
}

/// The answer to rows and multipliers.
fn judge_claim(alloc: Global, claim: &Claim) -> Result<Answer, AllocError>
    requires { length claim.now.multipliers ≡ length claim.now.rows }
    ensures { IfOk result (λ answer. Judged claim.now answer.status answer.text.items) }
{
    match refutes(claim.rows.as_slice(), claim.multipliers.as_slice()) {
        Ok(yes) => {
            if yes {
                answer_line(alloc, Status::Holds, YES)
            } else {
                answer_line(alloc, Status::Fails, NO)
            }
        }
        Err(_) => answer_line(alloc, Status::BadInput, PAST),
    }
}
