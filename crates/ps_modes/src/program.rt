//! The top call: all that the program does, over any source, sink and gate.
ghost use Rattle.std.specs.Prelude.{◌≡◌, [], ◌∷◌, map, string_bytes, IfSome};
ghost use Rattle.std.specs.Io.KnownBytes.{Appends};
ghost use Rattle.ps_io.specs.Bytes.{TookPrefix};
ghost use Rattle.ps_modes.specs.Check.{SaysSafe};
ghost use Rattle.ps_modes.specs.Member.{SaysInfeasible};
ghost use Rattle.ps_modes.specs.Modes.{owed_by};
ghost use Rattle.ps_modes.specs.Promise.{Answers, HasCauses};
ghost use Rattle.ps_modes.specs.Status.{code, Exactly, IsOneOf};
ghost use Rattle.ps_modes.specs.declared.status.Status.TheVariants.{Holds, Fails, BadInput, BadWords, ReadFault, WriteFault, NoMemory};
ghost use Rattle.ps_words.specs.Asked.{AskFor, AskForNothing};
ghost use Rattle.ps_words.specs.declared.words.Words.{Words};

use crate::check::check_run;
use crate::member::member_run;
use crate::refute::refute_run;
use crate::replay::replay_run;
use crate::status::Status;
use crate::texts::USAGE;
use ps_io::{Gate, Sink, Source, write_all};
use ps_words::{Mode, WordsEnd, read_words};
use std::alloc::Global;
use std::string::String;
use std::sync::Wait;
use std::thread::Threads;

/// Does what the words ask for, and gives the program's exit status. The words are the program's name, a mode, and
/// options, as `read_words` reads them.
///
/// It waits for nobody yet, and passes no gate.
pub fn run<R, S: Source, K: Sink, G: Gate + Sync>(
    _rt: &R,
    alloc: Global,
    words: &[String],
    source: &mut S,
    sink: &mut K,
    _gate: &G,
) -> u8
where
    R: Threads + Wait + Sync,
    ensures statuses { IsOneOf result
        (Holds ∷ Fails ∷ BadInput ∷ BadWords ∷ ReadFault ∷ WriteFault ∷ NoMemory ∷ []) }

    // Words that ask for nothing that is built.
    ensures usage { Exactly result BadWords (AskForNothing (map string_bytes words.now)) }
    ensures usage_text { result ≡ code BadWords
        → Appends (K.written sink.old) (K.written sink.new) USAGE.now }
    ensures usage_prefix { AskForNothing (map string_bytes words.now) → result ≡ code WriteFault
        → TookPrefix (K.written sink.old) (K.written sink.new) USAGE.now }
    ensures unread { AskForNothing (map string_bytes words.now) → source.new ≡ source.old }

    // Words that ask for a mode: what it owes to the input.
    ensures answers { (asked : Words) → AskFor (map string_bytes words.now) asked
        → Answers (owed_by asked.mode) (S.left source.old) (K.written sink.old)
        (K.written sink.new) result }

    // Where a proof is accepted, no execution of the program, with any number of threads, fails an assertion.
    ensures safe { (asked : Words) → AskFor (map string_bytes words.now) asked
        → asked.mode ≡ Mode.Check → result ≡ code Holds
        → IfSome (S.left source.old) SaysSafe }

    // Where the entries of a proof prove a trace, it isn't both an error trace and feasible.
    ensures infeasible { (asked : Words) → AskFor (map string_bytes words.now) asked
        → asked.mode ≡ Mode.Member → result ≡ code Holds
        → IfSome (S.left source.old) SaysInfeasible }

    // Faults of the outside, each with its cause, and want of memory.
    ensures causes { HasCauses
        (record {
          left = S.left source.old;
          left_after = S.left source.new;
          faults = S.faults source.old;
          faults_after = S.faults source.new;
          failed_after = S.failed source.new;
        })
        (record {
          written = K.written sink.old;
          written_after = K.written sink.new;
          faults = K.faults sink.old;
          faults_after = K.faults sink.new;
        })
        result }
{
    match read_words(alloc, words) {
        Ok(asked) => match asked.mode {
            Mode::Refute => refute_run(alloc, source, sink),
            Mode::Replay => replay_run(alloc, source, sink),
            Mode::Check => check_run(alloc, source, sink),
            Mode::Member => member_run(alloc, source, sink),
        },
        Err(WordsEnd::Refused) => match write_all(sink, USAGE.as_bytes()) {
            Ok(()) => Status::BadWords.code(),
            Err(_) => Status::WriteFault.code(),
        },
        Err(WordsEnd::Memory(_)) => Status::NoMemory.code(),
    }
}
