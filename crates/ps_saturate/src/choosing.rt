// The atoms that sets are made of.
ghost use Rattle.std.specs.Prelude.{◌≡◌, ◌<◌, ◌≤◌, ◌++◌, ◌∷◌, [], All, Contains, IfOk, OnOk, length, map};
ghost use Rattle.ps_saturate.specs.inner.Arranging.{AreThreadsOf, arrangements, atom_with};
ghost use Rattle.ps_saturate.specs.inner.Trials.{AreChoices, IsChoice, atoms_of};
ghost use Rattle.ps_triple.specs.Rows.{predicate_of};
ghost use Rattle.ps_triple.specs.Tests.{IsThere};

use crate::arranging::arrangements;
use crate::choice::Choice;
use ps_atom::{Atom, Predicate, Threads};
use ps_command::Setting;
use ps_triple::atom_row;
use std::alloc::{AllocError, Global};

// The atoms of the first predicates, so many, that are asked for: each of the threads below a number, none twice. Those of
// predicates that aren't in range are left out, since no entry with one holds.
pub(crate) fn choices(
    alloc: Global,
    setting: &Setting,
    predicates: &[Predicate],
    known: u32,
    post: &Atom,
    threads: u32,
) -> Result<Vec<Choice>, AllocError>
    requires some { 0 < known }
    requires known { known ≤ length predicates.now }
    requires threads { AreThreadsOf post.now.threads threads }
    ensures { IfOk result (λ list.
        AreChoices setting.now predicates.now known post.now list.items) }
{
    let mut list = Vec::new(alloc);
    for number in 1..known {
        if !predicates[number as usize].is_in_range(setting.globals, setting.locals) {
            continue;
        }
        push_choices(alloc, &mut list, setting, predicates, number, post, threads)?;
    }
    Ok(list)
}

// Appends the atoms of one predicate.
fn push_choices(
    alloc: Global,
    list: &mut Vec<Choice>,
    setting: &Setting,
    predicates: &[Predicate],
    number: u32,
    post: &Atom,
    threads: u32,
) -> Result<(), AllocError>
    requires there { IsThere setting.now predicates.now number }
    requires threads { AreThreadsOf post.now.threads threads }
    ensures atoms { OnOk result (atoms_of list.new.items ≡ atoms_of list.old.items
        ++ map (atom_with number)
        (arrangements threads (predicate_of predicates.now number).arity)) }
    ensures made { OnOk result (All (IsChoice setting.now predicates.now post.now) list.old.items
        → All (IsChoice setting.now predicates.now post.now) list.new.items) }
{
    let lists = arrangements(alloc, threads, predicates[number as usize].arity)?;
    for of_atom in &lists {
        push_choice(
            alloc,
            list,
            setting,
            predicates,
            number,
            post,
            threads,
            of_atom.as_slice(),
        )?;
    }
    Ok(())
}

// Appends the atom of a predicate with these threads.
fn push_choice(
    alloc: Global,
    list: &mut Vec<Choice>,
    setting: &Setting,
    predicates: &[Predicate],
    number: u32,
    post: &Atom,
    threads: u32,
    of_atom: &[u32],
) -> Result<(), AllocError>
    requires there { IsThere setting.now predicates.now number }
    requires threads { AreThreadsOf post.now.threads threads }
    requires arranged { Contains (arrangements threads (predicate_of predicates.now number).arity)
        of_atom.now }
    ensures atoms { OnOk result (atoms_of list.new.items ≡ atoms_of list.old.items
        ++ atom_with number of_atom.now ∷ []) }
    ensures made { OnOk result (All (IsChoice setting.now predicates.now post.now) list.old.items
        → All (IsChoice setting.now predicates.now post.now) list.new.items) }
{
    let atom = Atom {
        predicate: number,
        threads: Threads::from_slice(alloc, of_atom)?,
    };
    let row = atom_row(alloc, setting, predicates, &atom)?;
    list.push(Choice { atom, row })?;
    Ok(())
}
