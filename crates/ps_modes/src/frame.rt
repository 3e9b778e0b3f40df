//! The frame of every mode: it reads the whole input, has the mode make the whole answer, and then writes it.
ghost use Rattle.std.specs.Prelude.{◌≡◌, ◌⊎◌, [], ◌∷◌, IsTrue, IfOk, IfErr, IsErrOf};
ghost use Rattle.ps_io.specs.Bytes.{GaveAtMost};
ghost use Rattle.ps_io.specs.Causes.{Rose};
ghost use Rattle.ps_modes.specs.Inner.Settled.{Settled};
ghost use Rattle.ps_modes.specs.Promise.{Answers, HasCauses};
ghost use Rattle.ps_modes.specs.Status.{IsOneOf};
ghost use Rattle.ps_modes.specs.declared.status.Status.TheVariants.{Holds, Fails, Unknown, BadInput, ReadFault, WriteFault, NoMemory};

use crate::answer::{Answer, answer_line};
use crate::input::MOST_BYTES;
use crate::judge::Judge;
use crate::status::Status;
use crate::texts::TOO_LONG;
use ps_io::{ReadEnd, Sink, Source, read_all, write_all};
use std::alloc::Global;

/// Writes what the source's input is owed, and gives the exit status. Returns always, where `judge` does.
///
/// Nothing is written before the answer is made whole.
pub(crate) fn answer_input<J: Judge, S: Source, K: Sink>(
    alloc: Global,
    judge: &J,
    source: &mut S,
    sink: &mut K,
) -> u8
    ensures statuses { IsOneOf result
        (Holds ∷ Fails ∷ Unknown ∷ BadInput ∷ ReadFault ∷ WriteFault ∷ NoMemory ∷ []) }

    ensures answers { Answers (J.owed judge.now) (S.left source.old) (K.written sink.old)
        (K.written sink.new) result }
    ensures causes { HasCauses
        (record {
          left = S.left source.old;
          left_after = S.left source.new;
          faults = S.faults source.old;
          faults_after = S.faults source.new;
          failed_after = S.failed source.new;
        })
        (record {
          written = K.written sink.old;
          written_after = K.written sink.new;
          faults = K.faults sink.old;
          faults_after = K.faults sink.new;
        })
        result }
{
    match answer_made(alloc, judge, source) {
        Ok(answer) => match write_all(sink, answer.text.as_slice()) {
            Ok(()) => answer.status.code(),
            Err(_) => Status::WriteFault.code(),
        },
        Err(status) => status.code(),
    }
}

/// The answer to the source's input, or `ReadFault` or `NoMemory`.
fn answer_made<J: Judge, S: Source>(
    alloc: Global,
    judge: &J,
    source: &mut S,
) -> Result<Answer, Status>
    ensures answer { IfOk result
        (λ answer. Settled (J.owed judge.now) (S.left source.old) answer.status answer.text.items) }
    ensures end { IfErr result (λ status. (status ≡ ReadFault) ⊎ (status ≡ NoMemory)) }
    ensures read_fault { IsErrOf result ReadFault
        → Rose (S.faults source.old) (S.faults source.new) }
    ensures read_fault_last { IsErrOf result ReadFault → IsTrue (S.failed source.new) }
    ensures read_fault_within { IsErrOf result ReadFault
        → GaveAtMost MOST_BYTES (S.left source.old) (S.left source.new) }
    ensures read_stayed { ¬ IsErrOf result ReadFault → S.faults source.new ≡ S.faults source.old }
{
    match read_all(alloc, source, MOST_BYTES) {
        Ok(input) => judge.judge(alloc, &input).map_err(|_| Status::NoMemory),
        Err(ReadEnd::Long) => {
            answer_line(alloc, Status::BadInput, TOO_LONG).map_err(|_| Status::NoMemory)
        }
        Err(ReadEnd::Failed) => Err(Status::ReadFault),
        Err(ReadEnd::Memory(_)) => Err(Status::NoMemory),
    }
}
