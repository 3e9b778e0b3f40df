//! Rows and tables for the tests of predicates, and answers as texts.
use ps_atom::{Place128, Predicate, Predicates};
use ps_term::{Row, Term, Var, add_scaled};
use std::alloc::{AllocError, Global};

/// The row of the sum of the pairs and the constant.
pub fn row(alloc: Global, pairs: &[(Var, i128)], constant: i128) -> Result<Row, AllocError> {
    let mut term = Term::from_constant(alloc, constant);
    for pair in pairs {
        let variable = Term::from_variable(alloc, pair.0)?;
        term = add_scaled(alloc, &term, pair.1, &variable)
            .ok()
            .ok_or(AllocError)?;
    }
    Ok(Row { term })
}

/// The row in which local 0 of five threads stands.
pub fn of_five_threads(alloc: Global) -> Result<Row, AllocError> {
    let mut term = Term::from_constant(alloc, 0);
    for thread in 0..5 {
        let variable = Term::from_variable(alloc, Var::Local(thread, 0))?;
        term = add_scaled(alloc, &term, 1, &variable)
            .ok()
            .ok_or(AllocError)?;
    }
    Ok(Row { term })
}

/// The table of `g0 + n <= 0` for all n from 1 to 127.
pub fn full_table(alloc: Global) -> Result<Predicates, AllocError> {
    let mut table = Predicates::new(alloc)?;
    for number in 1..128u8 {
        let row = row(alloc, &[(Var::Global(0), 1)], i128::from(number))?;
        table
            .push(alloc, Predicate { arity: 0, row })
            .ok()
            .ok_or(AllocError)?;
    }
    Ok(table)
}

/// Whether the table answers this of the row.
pub fn shows(alloc: Global, table: &Predicates, row: &Row, want: &str) -> Result<bool, AllocError> {
    let shown = match table.number_of(alloc, row) {
        Ok(place) => shown_place(alloc, &place.copy(alloc)?)?,
        Err(end) => format!(in alloc; "{end}")?,
    };
    Ok(shown.as_str() == want)
}

fn shown_place(alloc: Global, place: &Place128) -> Result<String, AllocError> {
    match place {
        Place128::Trivial => String::from_str(alloc, "trivial"),
        Place128::False => String::from_str(alloc, "false"),
        Place128::Known { number, threads } => {
            let threads = threads.as_slice();
            format!(in alloc; "known {number} {threads:?}")
        }
        Place128::New { predicate, threads } => { shown_new(alloc, predicate, threads.as_slice()) }
    }
}

fn shown_new(alloc: Global, predicate: &Predicate, threads: &[u32]) -> Result<String, AllocError> {
    let arity = predicate.arity;
    let pairs = predicate.row.term.pairs.as_slice();
    let constant = predicate.row.term.constant;
    format!(in alloc; "new {arity} {pairs:?} {constant} {threads:?}")
}
