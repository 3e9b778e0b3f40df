//! Atoms as fields: `P`, or `P:T,T` with threads.
ghost use Rattle.std.specs.Prelude.{◌≡◌, ◌∷◌, [], IfOk, ℕ};
ghost use Rattle.std.specs.List.{list_all};
ghost use Rattle.std.specs.Option.{option_map_or};
ghost use Rattle.ps_atom_text.specs.Reading.{atom_from, atom_in_field, between_commas, number_up_to, numbers_up_to};
ghost use Rattle.ps_atom_text.specs.inner.Ends.{IsRead};
ghost use Rattle.ps_atom_text.specs.inner.Faults.{atom_fault};
ghost use Rattle.ps_lines.specs.Decimal.{counts_as_decimal};
ghost use Rattle.ps_lines.specs.Reading.{Gives, leaf_at};

use crate::field_end::FieldEnd;
use ps_atom::{Atom, Threads};
use ps_text::{FormEnd, FormName, Leaf, Natural32, Reader, counts_as_decimal, cut, read_u32};
use std::alloc::{AllocError, Global};

/// The number that a field is, if it is at most `most`.
pub(crate) fn number_up_to(most: u32, field: &[u8]) -> Option<u32>
    ensures { result ≡ number_up_to most field.now }
{
    match read_u32(field) {
        Some(n) => { if n <= most { Some(n) } else { None } }
        None => None,
    }
}

// What stands before the first comma, and what stands after it.
fn first_part(list: &[u8]) -> (&[u8], Option<&[u8]>)
    ensures { between_commas list.now
        ≡ result.0.now ∷ option_map_or (λ rest. between_commas rest.now) result.1 [] }
{
    match cut(list, b',') {
        Some((first, rest)) => (first, Some(rest)),
        None => (list, None),
    }
}

// Whether what stands between commas counts as decimals.
fn are_decimals(list: &[u8]) -> bool
    ensures { result ≡ list_all counts_as_decimal (between_commas list.now) }
{
    let mut left = Some(list);
    'looking: while let Some(parts) = left {
        let (first, rest) = first_part(parts);
        if !counts_as_decimal(first) {
            return false;
        }
        left = rest;
    }
    true
}

// The numbers that stand between commas, if each is at most `most`.
fn read_threads(alloc: Global, most: u32, list: &[u8]) -> Result<Option<Threads>, AllocError>
    ensures { IfOk result (λ threads. threads ≡ numbers_up_to most (between_commas list.now)) }
{
    let mut threads = Threads::new(alloc);
    let mut left = Some(list);
    'reading: while let Some(parts) = left {
        let (first, rest) = first_part(parts);
        match number_up_to(most, first) {
            Some(thread) => threads.push(thread)?,
            None => return Ok(None),
        }
        left = rest;
    }
    Ok(Some(threads))
}

// What is wrong with an atom of which some number can't be read.
fn atom_fault(predicate: &[u8], threads: &[u8]) -> FormName
    ensures { result ≡ atom_fault predicate.now (between_commas threads.now) }
{
    if counts_as_decimal(predicate) && are_decimals(threads) {
        FormName::Number
    } else {
        FormName::Field
    }
}

// The atom of a predicate and threads, which are at most `most`. Whether the parts are in form is asked
// only where a number can't be read, since one that can be is.
#[tactic(auto, using(crate::proofs::Atoms::atom_read, crate::proofs::Atoms::atom_unnumbered, crate::proofs::Atoms::atom_threadless))]
fn with_threads(
    alloc: Global,
    most: u32,
    predicate: &[u8],
    threads: &[u8],
) -> Result<Atom, FieldEnd>
    ensures { IsRead result (atom_from most (predicate.now, between_commas threads.now)) }
{
    let Some(number) = read_u32(predicate) else {
        return Err(FieldEnd::Fault(atom_fault(predicate, threads)));
    };
    match read_threads(alloc, most, threads)? {
        Some(threads) => Ok(Atom {
            predicate: number,
            threads,
        }),
        None => Err(FieldEnd::Fault(atom_fault(predicate, threads))),
    }
}

// The atom of a predicate without threads.
fn without_threads(alloc: Global, field: &[u8]) -> Result<Atom, FieldEnd>
    ensures { (most : ℕ) → IsRead result (atom_from most (field.now, [])) }
{
    match <Natural32 as Leaf>::read(None, field) {
        Ok(predicate) => Ok(Atom {
            predicate,
            threads: Threads::new(alloc),
        }),
        Err(what) => Err(FieldEnd::Fault(what)),
    }
}

/// The atom that a field is, whose threads are at most `most`.
pub(crate) fn read_atom(alloc: Global, most: u32, field: &[u8]) -> Result<Atom, FieldEnd>
    ensures { IsRead result (atom_in_field most field.now) }
{
    match cut(field, b':') {
        Some((predicate, threads)) => with_threads(alloc, most, predicate, threads),
        None => without_threads(alloc, field),
    }
}

/// Takes the next field, an atom whose threads are at most `most`.
#[tactic(auto, unfolding(ps_lines::specs::Reading::leaf_at, ps_lines::specs::Steps::and_then))]
pub(crate) fn take_atom<'a>(
    alloc: Global,
    most: u32,
    reader: &mut Reader<'a>,
) -> Result<Atom, FormEnd>
    ensures { Gives (λ x. x) result reader.new (leaf_at (atom_in_field most) reader.old) }
{
    let place = reader.fault(FormName::Field);
    let field = reader.field()?;
    match read_atom(alloc, most, field) {
        Ok(atom) => Ok(atom),
        Err(end) => Err(end.placed(place)),
    }
}
