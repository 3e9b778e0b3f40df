// The rows that hold at the start of a program.
ghost use Rattle.std.specs.Prelude.{◌≡◌, ◌++◌, ◌∷◌, [], ℕ, IfOk, OnOk, IsErrOf, Some, not, filter};
ghost use Rattle.std.specs.List.{AllByRecursion, flat_map};
ghost use Rattle.ps_command.specs.Named.{is_local, names_local};
ghost use Rattle.ps_compile.specs.Compiled.{declared_rows, relation_rows, start_rows, value_rows};
ghost use Rattle.ps_compile.specs.Conditions.{IsCompilable, IsCompilableRelation, IsSmallValue, number_bound};
ghost use Rattle.ps_compile.specs.Ops.{with_product};
ghost use Rattle.ps_compile.specs.inner.Near.{IsNear};
ghost use Rattle.ps_term.specs.Exact.{number_term};
ghost use Rattle.ps_term.specs.declared.row.Row.{Row};
ghost use Rattle.ps_tree.specs.declared.global_decl.GlobalDecl.{GlobalDecl};

use crate::alternatives::first_rows;
use crate::terms::add_product;
use ps_term::{Row, Term, TermEnd, Var};
use ps_tree::{GlobalDecl, Program, Relation};
use std::alloc::{AllocError, Global};

// Rows that hold once, and rows that hold for each thread, since they name a local.
#[derive(Drop)]
pub(crate) struct StartRows {
    pub once: Vec<Row>,
    pub each: Vec<Row>,
}

// The rows of declared values and of relations, in text order, each on its side. They are `Past128`
// only where the program can't be compiled.
pub(crate) fn start_rows(alloc: Global, program: &Program) -> Result<StartRows, TermEnd>
    ensures once { IfOk result (λ rows. rows.once.items
        ≡ filter (λ (r : Row). not (names_local r)) (start_rows program.now)) }
    ensures each { IfOk result (λ rows. rows.each.items
        ≡ filter names_local (start_rows program.now)) }
    ensures past { IsErrOf result TermEnd.Past128 → IsCompilable program.now → ⊥ }
{
    let mut rows = Vec::new(alloc);
    push_declared(alloc, &mut rows, program.globals.as_slice())?;
    match push_relations(alloc, &mut rows, program.inits.as_slice()) {
        Ok(()) => {}
        Err(end) => return Err(end),
    }
    match divided(alloc, rows) {
        Ok(sides) => Ok(sides),
        Err(end) => Err(TermEnd::Memory(end)),
    }
}

// Adds the rows of declared values.
fn push_declared(alloc: Global, rows: &mut Vec<Row>, globals: &[GlobalDecl]) -> Result<(), TermEnd>
    ensures is { OnOk result (rows.new.items ≡ rows.old.items ++ declared_rows 0 globals.now) }
    ensures past { IsErrOf result TermEnd.Past128
        → AllByRecursion (λ (d : GlobalDecl). IsSmallValue d.value) globals.now → ⊥ }
{
    for i in 0..globals.len() {
        push_value(alloc, rows, i, globals[i].value)?;
    }
    Ok(())
}

// Adds the rows of a value, where there is one: x - v and v - x, where x is the global of this
// number. For a number of more than 32 bits, which no global has, there is no memory.
fn push_value(
    alloc: Global,
    rows: &mut Vec<Row>,
    global: usize,
    value: Option<i128>,
) -> Result<(), TermEnd>
    ensures is { OnOk result (rows.new.items ≡ rows.old.items ++ value_rows global value) }
    ensures past { IsErrOf result TermEnd.Past128 → IsSmallValue value → ⊥ }
{
    let value = match value {
        Some(value) => value,
        None => return Ok(()),
    };
    let variable = match u32::try_from(global) {
        Ok(number) => Var::Global(number),
        Err(_) => return Err(TermEnd::Memory(AllocError)),
    };
    let negative = match value.checked_neg() {
        Some(negative) => negative,
        None => return Err(TermEnd::Past128),
    };
    let upper = plus_variable(alloc, negative, 1, variable)?;
    let lower = plus_variable(alloc, value, -1, variable)?;
    rows.push(upper).map_err(|_| TermEnd::Memory(AllocError))?;
    rows.push(lower).map_err(|_| TermEnd::Memory(AllocError))?;
    Ok(())
}

// The row of a number plus so many times a variable.
fn plus_variable(alloc: Global, constant: i128, by: i128, variable: Var) -> Result<Row, TermEnd>
    ensures is { IfOk result (λ row. row
        ≡ record { term = with_product by (Some variable) (number_term constant) }) }
    ensures past { IsErrOf result TermEnd.Past128
        → IsNear number_bound constant → IsNear 1 by → ⊥ }
{
    let number = Term::from_constant(alloc, constant);
    match add_product(alloc, &number, by, Some(variable)) {
        Ok(term) => Ok(Row { term }),
        Err(end) => Err(end),
    }
}

// Adds the rows of relations.
fn push_relations(alloc: Global, rows: &mut Vec<Row>, relations: &[Relation]) -> Result<(), TermEnd>
    ensures is { OnOk result (rows.new.items
        ≡ rows.old.items ++ flat_map relation_rows relations.now) }
    ensures past { IsErrOf result TermEnd.Past128 → (globals locals : ℕ)
        → AllByRecursion (IsCompilableRelation globals locals) relations.now → ⊥ }
{
    for relation in relations {
        let mut more = match first_rows(alloc, relation.sign, &relation.left, &relation.right) {
            Ok(more) => more,
            Err(end) => return Err(end),
        };
        rows.append(&mut more).map_err(TermEnd::Memory)?;
    }
    Ok(())
}

// Each row on its side.
fn divided(alloc: Global, rows: Vec<Row>) -> Result<StartRows, AllocError>
    ensures once { IfOk result (λ sides. sides.once.items
        ≡ filter (λ (r : Row). not (names_local r)) rows.items) }
    ensures each { IfOk result (λ sides. sides.each.items ≡ filter names_local rows.items) }
{
    let mut sides = StartRows {
        once: Vec::new(alloc),
        each: Vec::new(alloc),
    };
    for row in rows {
        place(&mut sides, row)?;
    }
    Ok(sides)
}

// Adds the row on its side.
fn place(sides: &mut StartRows, row: Row) -> Result<(), AllocError>
    ensures once { OnOk result (sides.new.once.items
        ≡ sides.old.once.items ++ filter (λ (r : Row). not (names_local r)) (row ∷ [])) }
    ensures each { OnOk result (sides.new.each.items
        ≡ sides.old.each.items ++ filter names_local (row ∷ [])) }
{
    if names_local(&row) {
        sides.each.push(row).map_err(|_| AllocError)
    } else {
        sides.once.push(row).map_err(|_| AllocError)
    }
}

// Whether the row names a local. Looks at each pair once.
fn names_local(row: &Row) -> bool
    ensures { result ≡ names_local row.now }
{
    let pairs = row.term.pairs.as_slice();
    for pair in pairs {
        if is_local(pair.0) {
            return true;
        }
    }
    false
}

fn is_local(variable: Var) -> bool
    ensures { result ≡ is_local variable }
{
    match variable {
        Var::Local(_thread, _number) => true,
        Var::Global(_number) => false,
        Var::Havoc(_number) => false,
    }
}
