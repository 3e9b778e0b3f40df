//! Reading proofs, with the first fault.
ghost use Rattle.std.specs.Prelude.{◌≡◌, ◌+◌, ◌<◌, ◌≤◌, ◌^◌, length, IfOk, Ok};
ghost use Rattle.ps_file.specs.Reading.{listed_at, proof_at, version_at};
ghost use Rattle.ps_file.specs.Spelling.{ProofFits, proof_lines};
ghost use Rattle.ps_file.specs.declared.proof.Proof.{Proof};
ghost use Rattle.ps_lines.specs.Reading.{text_start, Gives, Reads, Tells};
ghost use Rattle.ps_lines.specs.Tokens.{text_bytes};

use crate::limits::{MOST_CONFIGS, MOST_ENTRIES, MOST_PREDICATES};
use crate::proof::Proof;
use ps_atom_text::{ConfigLine, EntryLine, PredicateLine};
use ps_list::Sequence;
use ps_text::{Form, FormEnd, FormFault, Reader, times};
use std::alloc::Global;

// The line `proof 1`.
#[tactic(auto, unfolding(crate::specs::Reading::version_at, ps_lines::specs::Steps::and_then))]
fn take_version<'a>(reader: &mut Reader<'a>) -> Result<(), FormFault>
    ensures { Reads (λ x. x) result reader.new (version_at reader.old) }
{
    reader.line(b"proof")?;
    reader.word(b"1")?;
    reader.end()
}

// A line of a word and a count, at most `limit`, and so many members.
#[tactic(auto, unfolding(crate::specs::Reading::listed_at, ps_lines::specs::Steps::and_then))]
fn take_listed<'a, F: Form>(
    alloc: Global,
    word: &[u8],
    limit: u32,
    reader: &mut Reader<'a>,
) -> Result<Sequence<F::Value>, FormEnd>
    ensures { Gives (λ x. x) result reader.new (listed_at word.now limit F.reading reader.old) }
{
    let count = reader.header(word, limit)?;
    let members = times::<F>(alloc, count, reader)?;
    Ok(Sequence::from_list(members))
}

#[tactic(auto, unfolding(crate::specs::Reading::proof_at, ps_lines::specs::Steps::and_then))]
fn whole(alloc: Global, bytes: &[u8], first: u32) -> Result<Proof, FormEnd>
    requires from_one { 1 ≤ first }
    requires room { first + length bytes.now < 2 ^ 32 }
    ensures { Tells (λ x. x) result (proof_at (text_start first bytes.now)) }
{
    let mut reader = Reader::new(bytes, first);
    take_version(&mut reader)?;
    let predicates = take_listed::<PredicateLine>(alloc, b"preds", MOST_PREDICATES, &mut reader)?;
    let entries = take_listed::<EntryLine>(alloc, b"entries", MOST_ENTRIES, &mut reader)?;
    let configs = take_listed::<ConfigLine>(alloc, b"configs", MOST_CONFIGS, &mut reader)?;
    reader.only(b"end")?;
    reader.done()?;
    Ok(Proof {
        predicates,
        entries,
        configs,
    })
}

/// The proof that the bytes spell, all of the bytes, or the first fault. Lines count from `first`.
/// Looks at each byte some ten times; takes memory for the result alone.
pub fn read_proof(alloc: Global, bytes: &[u8], first: u32) -> Result<Proof, FormEnd>
    requires from_one { 1 ≤ first }
    requires room { first + length bytes.now < 2 ^ 32 }
    // What is read is spelled so, and is within the limits.
    ensures found { IfOk result
        (λ proof. ProofFits proof × (bytes.now ≡ text_bytes (proof_lines proof))) }
    // What is spelled so is read, unless memory runs out.
    ensures only { (proof : Proof) → ProofFits proof
        → bytes.now ≡ text_bytes (proof_lines proof) → Tells (λ x. x) result (Ok proof) }
    // Which fault it is.
    ensures exact { Tells (λ x. x) result (proof_at (text_start first bytes.now)) }
{
    whole(alloc, bytes, first)
}
