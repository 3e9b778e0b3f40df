//! Lists of entries: what they take, and what they and their copies show.
ghost use Rattle.std.specs.Prelude.{◌<◌, ◌≤◌, ◌+◌};

use ps_atom_text::put_entry;
use ps_basis::{Basis, Front, Shown};
use ps_case::{read_number, truth, two_parts, word};
use ps_case_space::proof_of;
use ps_list::Sequence;
use ps_triple::{Entry, Initial};
use std::alloc::{AllocError, Global};

/// What a list of the proof's entries answers, `PROOF|QUESTION`, or `differ` where a copy of it answers something else. A
/// question is `count`, `entries`, `initial PREDICATE` or `next POST COMMAND FROM`.
pub fn basis_told(alloc: Global, input: &str) -> Result<Vec<u8>, AllocError> {
    let (proof, question) = two_parts(input, '|')?;
    let basis = basis_of(alloc, proof)?;
    let copied = basis.copy(alloc)?;
    agreed(
        alloc,
        told(alloc, &basis, question)?,
        told(alloc, &copied, question)?,
    )
}

/// The same of the first entries alone, `PROOF|COUNT|QUESTION`.
pub fn front_told(alloc: Global, input: &str) -> Result<Vec<u8>, AllocError> {
    let (proof, rest) = two_parts(input, '|')?;
    let (count, question) = two_parts(rest, '|')?;
    let front = front_of_basis(alloc, &basis_of(alloc, proof)?, read_number(count)?)?;
    let copied = front.copy(alloc)?;
    agreed(
        alloc,
        told(alloc, &front, question)?,
        told(alloc, &copied, question)?,
    )
}

fn agreed(alloc: Global, one: Vec<u8>, other: Vec<u8>) -> Result<Vec<u8>, AllocError> {
    if one.as_slice() == other.as_slice() {
        Ok(one)
    } else {
        word(alloc, "differ")
    }
}

// The list of the proof's entries, each of which must get the next number.
fn basis_of(alloc: Global, proof: &str) -> Result<Basis, AllocError> {
    let mut basis = Basis::new(alloc);
    for entry in proof_of(alloc, proof)?.entries.into_list() {
        append(alloc, &mut basis, entry)?;
    }
    Ok(basis)
}

fn append(alloc: Global, basis: &mut Basis, entry: Entry) -> Result<(), AllocError> {
    let expected = basis.count();
    basis.reserve(alloc, 1)?;
    match basis.push_reserved(entry) {
        Ok(number) => {
            if number == expected {
                Ok(())
            } else {
                Err(AllocError)
            }
        }
        Err(_) => Err(AllocError),
    }
}

fn front_of_basis(alloc: Global, basis: &Basis, count: u32) -> Result<Front, AllocError> {
    if basis.list().len() < count as usize {
        return Err(AllocError);
    }
    basis.front(alloc, count)
}

fn told<S: Shown>(alloc: Global, shown: &S, question: &str) -> Result<Vec<u8>, AllocError> {
    if question == "count" {
        return number_shown(alloc, Some(shown.count()));
    }
    if question == "entries" {
        return entries_shown(alloc, shown);
    }
    if let Some(predicate) = question.strip_prefix("initial ") {
        return truth(alloc, shown.is_initial(read_number(predicate)?));
    }
    let asked = question.strip_prefix("next ").ok_or(AllocError)?;
    let (post, rest) = two_parts(asked, ' ')?;
    let (command, from) = two_parts(rest, ' ')?;
    let found = shown.next_for(
        read_number(post)?,
        read_number(command)?,
        read_number(from)?,
    );
    number_shown(alloc, found)
}

fn number_shown(alloc: Global, number: Option<u32>) -> Result<Vec<u8>, AllocError> {
    match number {
        Some(number) => Ok(format!(in alloc; "{number}")?.into_bytes()),
        None => word(alloc, "none"),
    }
}

// The lines of the entries.
fn entries_shown<S: Shown>(alloc: Global, shown: &S) -> Result<Vec<u8>, AllocError> {
    let mut out = Vec::new(alloc);
    for number in 0..shown.count() {
        put_entry(&mut out, shown.entry(number))?;
    }
    Ok(out)
}

/// `taken` where a list of so many entries takes one more, or `back` where it hands it back.
pub fn filled(alloc: Global, input: &str) -> Result<Vec<u8>, AllocError> {
    let count = read_number(input)?;
    if count > 100_000 {
        return Err(AllocError);
    }
    let mut basis = Basis::new(alloc);
    basis.reserve(alloc, count + 1)?;
    for number in 0..count {
        if !takes(alloc, &mut basis, number) {
            return Err(AllocError);
        }
    }
    last_one(alloc, &mut basis)
}

// That the predicate of a number holds at first, without multipliers.
fn bare(alloc: Global, predicate: u32) -> Entry {
    Entry::Initial(Initial {
        predicate,
        lambda: Sequence::from_list(Vec::new(alloc)),
    })
}

fn takes(alloc: Global, basis: &mut Basis, number: u32) -> bool
    requires { 0 < basis.old.room }
    ensures { basis.old.room ≤ basis.new.room + 1 }
{
    basis
        .push_reserved(bare(alloc, number))
        .is_ok_and(|given| given == number)
}

fn last_one(alloc: Global, basis: &mut Basis) -> Result<Vec<u8>, AllocError>
    requires { 0 < basis.old.room }
{
    match basis.push_reserved(bare(alloc, 77)) {
        Err(Entry::Initial(initial)) => {
            if initial.predicate == 77 {
                word(alloc, "back")
            } else {
                Err(AllocError)
            }
        }
        Err(Entry::Triple(_)) => Err(AllocError),
        Ok(_) => word(alloc, "taken"),
    }
}
