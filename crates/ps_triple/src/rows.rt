// The rows of entries.
ghost use Rattle.std.specs.Prelude.{◌≡◌, ◌++◌, ◌<◌, ◌+◌, ◌∷◌, [], All, IfOk, OnOk, IsErrOf, length, map};
ghost use Rattle.ps_atom.specs.Atoms.{at_threads};
ghost use Rattle.ps_term.specs.Negation.{NegationFits};
ghost use Rattle.ps_term.specs.Substitution.{SubstitutionFits};
ghost use Rattle.ps_triple.specs.Fits.{MakingFits, entry_rows};
ghost use Rattle.ps_triple.specs.Places.{row_by};
ghost use Rattle.ps_triple.specs.Rows.{atom_row, form_in, initial_rows, negated, predicate_of, row_after, rows_of_threads, triple_rows};
ghost use Rattle.ps_triple.specs.Short.{AreShort};
ghost use Rattle.ps_triple.specs.inner.Lent.{all_rows};
ghost use Rattle.ps_triple.specs.Tests.{HasDistinctThreads, HasThreadsOnce, IsAtomOf, IsThere, NamesThings};

use crate::entry::Entry;
use crate::entry_rows::EntryRows;
use crate::initial::Initial;
use crate::placing::place;
use crate::triple::Triple;
use ps_atom::{Atom, Predicate};
use ps_command::{Setting, SymbolicForm};
use ps_term::{Row, TermEnd, negate};
use std::alloc::{AllocError, Global};

// How many rows the entry has.
pub(crate) fn row_count(setting: &Setting, predicates: &[Predicate], entry: &Entry) -> u64
    requires names { NamesThings setting.now predicates.now entry.now }
    requires short { AreShort setting.now entry.now }
    ensures { result ≡ length (entry_rows setting.now predicates.now entry.now) }
{
    match entry {
        Entry::Triple(triple) => {
            let form = &setting.symbols.as_slice()[triple.command as usize];
            (triple.pre.as_slice().len() + form.rows.as_slice().len() + 1) as u64
        }
        Entry::Initial(initial) => {
            let slots = predicates[initial.predicate as usize].arity as u64;
            let once = setting.init_once.as_slice().len() as u64;
            let each = setting.init_each.as_slice().len() as u64;
            once + (slots + 1) * each + 1
        }
    }
}

// The rows of the entry.
pub(crate) fn make_rows<'a>(
    alloc: Global,
    setting: &'a Setting,
    predicates: &[Predicate],
    entry: &Entry,
) -> Result<EntryRows<'a>, TermEnd>
    requires names { NamesThings setting.now predicates.now entry.now }
    requires distinct { HasDistinctThreads entry.now }
    ensures rows { IfOk result (λ rows. all_rows rows
        ≡ entry_rows setting.now predicates.now entry.now) }
    ensures fits { OnOk result (MakingFits setting.now predicates.now entry.now) }
    ensures past { IsErrOf result TermEnd.Past128
        → ¬ MakingFits setting.now predicates.now entry.now }
{
    match entry {
        Entry::Triple(triple) => {
            let form = &setting.symbols.as_slice()[triple.command as usize];
            triple_rows(alloc, setting, predicates, form, triple)
        }
        Entry::Initial(initial) => initial_rows(alloc, setting, predicates, initial),
    }
}

fn triple_rows<'a>(
    alloc: Global,
    setting: &Setting,
    predicates: &[Predicate],
    form: &'a SymbolicForm,
    triple: &Triple,
) -> Result<EntryRows<'a>, TermEnd>
    requires form { form.now ≡ form_in setting.now triple.now.command }
    requires before { All (IsAtomOf setting.now predicates.now) triple.now.pre }
    requires after { IsAtomOf setting.now predicates.now triple.now.post }
    requires once { All HasThreadsOnce triple.now.pre }
    requires once_after { HasThreadsOnce triple.now.post }
    ensures rows { IfOk result (λ rows. all_rows rows
        ≡ triple_rows setting.now predicates.now triple.now) }
    ensures fits { OnOk result (NegationFits (atom_row predicates.now triple.now.post)
        × SubstitutionFits form.now.after
        (negated (atom_row predicates.now triple.now.post)).term) }
    ensures past { IsErrOf result TermEnd.Past128
        → ¬ (NegationFits (atom_row predicates.now triple.now.post)
        × SubstitutionFits form.now.after
        (negated (atom_row predicates.now triple.now.post)).term) }
{
    let before = rows_before(alloc, setting, predicates, triple.pre.as_slice())?;
    let last = denied_row(alloc, setting, predicates, form, &triple.post)?;
    let mut after = Vec::new(alloc);
    push(&mut after, last)?;
    Ok(EntryRows {
        before,
        lent: form.rows.as_slice(),
        after,
    })
}

fn initial_rows<'a>(
    alloc: Global,
    setting: &'a Setting,
    predicates: &[Predicate],
    initial: &Initial,
) -> Result<EntryRows<'a>, TermEnd>
    requires { IsThere setting.now predicates.now initial.now.predicate }
    ensures rows { IfOk result (λ rows. all_rows rows
        ≡ initial_rows setting.now predicates.now initial.now) }
    ensures fits { OnOk result (NegationFits
        (predicate_of predicates.now initial.now.predicate).row) }
    ensures past { IsErrOf result TermEnd.Past128
        → ¬ NegationFits (predicate_of predicates.now initial.now.predicate).row }
{
    let predicate = &predicates[initial.predicate as usize];
    let mut after = Vec::new(alloc);
    push_rows_of_threads(alloc, &mut after, setting, predicate.arity + 1)?;
    let last = negated(alloc, &predicate.row)?;
    push(&mut after, last)?;
    Ok(EntryRows {
        before: Vec::new(alloc),
        lent: setting.init_once.as_slice(),
        after,
    })
}

// The rows of atoms, in order.
fn rows_before(
    alloc: Global,
    setting: &Setting,
    predicates: &[Predicate],
    atoms: &[Atom],
) -> Result<Vec<Row>, TermEnd>
    requires atoms { All (IsAtomOf setting.now predicates.now) atoms.now }
    requires once { All HasThreadsOnce atoms.now }
    ensures rows { IfOk result (λ rows. rows.items ≡ map (atom_row predicates.now) atoms.now) }
    ensures fits { ¬ IsErrOf result TermEnd.Past128 }
{
    let mut rows = Vec::with_capacity(alloc, atoms.len()).map_err(TermEnd::Memory)?;
    for atom in atoms {
        let row = atom_row(alloc, setting, predicates, atom).map_err(TermEnd::Memory)?;
        push(&mut rows, row)?;
    }
    Ok(rows)
}

/// The row that an atom fails after a command, as one on the values before it: `1 - t <= 0` after the command for the
/// atom's row `t <= 0`. It is `Past128` where a product or a sum of its making lies outside `i128`. In time and memory of the
/// pairs of the row and of the terms that are put.
pub fn denied_row(
    alloc: Global,
    setting: &Setting,
    predicates: &[Predicate],
    form: &SymbolicForm,
    after: &Atom,
) -> Result<Row, TermEnd>
    requires atom { IsAtomOf setting.now predicates.now after.now }
    requires once { HasThreadsOnce after.now }
    ensures row { IfOk result (λ row. row ≡ row_after form.now
        (negated (atom_row predicates.now after.now))) }
    ensures fits { OnOk result (NegationFits (atom_row predicates.now after.now)
        × SubstitutionFits form.now.after (negated (atom_row predicates.now after.now)).term) }
    ensures past { IsErrOf result TermEnd.Past128
        → ¬ (NegationFits (atom_row predicates.now after.now)
        × SubstitutionFits form.now.after (negated (atom_row predicates.now after.now)).term) }
{
    let row = atom_row(alloc, setting, predicates, after).map_err(TermEnd::Memory)?;
    let denied = negated(alloc, &row)?;
    Ok(Row {
        term: form.after.put_in(alloc, &denied.term)?,
    })
}

/// The row of an atom: that of its predicate, with its threads for the slots. In time and memory of its pairs.
pub fn atom_row(
    alloc: Global,
    setting: &Setting,
    predicates: &[Predicate],
    atom: &Atom,
) -> Result<Row, AllocError>
    requires atom { IsAtomOf setting.now predicates.now atom.now }
    requires once { HasThreadsOnce atom.now }
    ensures { IfOk result (λ row. row ≡ atom_row predicates.now atom.now) }
{
    let predicate = &predicates[atom.predicate as usize];
    place(alloc, &predicate.row, atom.threads.as_slice())
}

// The row `1 - t <= 0` of a row `t <= 0`.
fn negated(alloc: Global, row: &Row) -> Result<Row, TermEnd>
    ensures row { IfOk result (λ new. new ≡ negated row.now) }
    ensures fits { OnOk result (NegationFits row.now) }
    ensures past { IsErrOf result TermEnd.Past128 → ¬ NegationFits row.now }
{
    negate(alloc, row)
}

// Appends the rows for each of the threads below a number.
fn push_rows_of_threads(
    alloc: Global,
    rows: &mut Vec<Row>,
    setting: &Setting,
    threads: u32,
) -> Result<(), TermEnd>
    ensures rows { OnOk result (rows.new.items ≡ rows.old.items
        ++ rows_of_threads setting.now.init_each threads) }
    ensures fits { ¬ IsErrOf result TermEnd.Past128 }
{
    for thread in 0..threads {
        push_rows_of(alloc, rows, setting, thread)?;
    }
    Ok(())
}

// Appends the rows that hold for every thread, for this one.
fn push_rows_of(
    alloc: Global,
    rows: &mut Vec<Row>,
    setting: &Setting,
    thread: u32,
) -> Result<(), TermEnd>
    ensures rows { OnOk result
        (rows.new.items ≡ rows.old.items
        ++ map (row_by (at_threads (thread ∷ []))) setting.now.init_each) }
    ensures fits { ¬ IsErrOf result TermEnd.Past128 }
{
    let threads = [thread];
    for row in setting.init_each.as_slice() {
        let placed = place(alloc, row, &threads).map_err(TermEnd::Memory)?;
        push(rows, placed)?;
    }
    Ok(())
}

// Appends a row.
fn push(rows: &mut Vec<Row>, row: Row) -> Result<(), TermEnd>
    ensures rows { OnOk result (rows.new.items ≡ rows.old.items ++ row ∷ []) }
    ensures fits { ¬ IsErrOf result TermEnd.Past128 }
{
    match rows.push(row) {
        Ok(()) => Ok(()),
        Err(_) => Err(TermEnd::Memory(AllocError)),
    }
}
