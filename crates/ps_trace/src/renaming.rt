//! Variables and terms of a command, where a thread runs it.
ghost use Rattle.std.specs.Prelude.{◌≡◌, ◌<◌, ◌+◌, ◌^◌, IfOk, IsTrue};
ghost use Rattle.std.specs.List.{list_all};
ghost use Rattle.ps_trace.specs.Rows.{of_thread, pairs_of_thread, term_of_thread};
ghost use Rattle.ps_trace.specs.Own.{is_own, is_own_term};

use ps_term::{Pairs, Term, Var};
use std::alloc::{AllocError, Global};

/// The variable of a command of so many havocs, its locals being the thread's, and its havocs counted from `first`.
pub fn of_thread(variable: Var, thread: u32, first: u32, havocs: u32) -> Var
    requires own { IsTrue (is_own havocs variable) }
    requires havocs { first + havocs < 2 ^ 32 }
    ensures { result ≡ of_thread thread first variable }
{
    match variable {
        Var::Global(n) => Var::Global(n),
        Var::Local(_, n) => Var::Local(thread, n),
        Var::Havoc(i) => Var::Havoc(first + i),
    }
}

/// The term of a command of so many havocs, with its variables as `of_thread` gives them; in time and memory of its pairs.
pub fn term_of_thread(
    alloc: Global,
    term: &Term,
    thread: u32,
    first: u32,
    havocs: u32,
) -> Result<Term, AllocError>
    requires own { IsTrue (is_own_term havocs term.now) }
    requires havocs { first + havocs < 2 ^ 32 }
    ensures { IfOk result (λ own. own ≡ term_of_thread thread first term.now) }
{
    let pairs = pairs_of_thread(alloc, term.pairs.as_slice(), thread, first, havocs)?;
    Ok(Term {
        pairs: Pairs::from_list(pairs),
        constant: term.constant,
    })
}

fn pairs_of_thread(
    alloc: Global,
    pairs: &[(Var, i128)],
    thread: u32,
    first: u32,
    havocs: u32,
) -> Result<Vec<(Var, i128)>, AllocError>
    requires own { IsTrue (list_all (λ p. is_own havocs p.0) pairs.now) }
    requires havocs { first + havocs < 2 ^ 32 }
    ensures { IfOk result (λ list. list.items ≡ pairs_of_thread thread first pairs.now) }
{
    let mut list = Vec::with_capacity(alloc, pairs.len())?;
    for pair in pairs {
        list.push((of_thread(pair.0, thread, first, havocs), pair.1))?;
    }
    Ok(list)
}
