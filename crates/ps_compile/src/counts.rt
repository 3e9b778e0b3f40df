// How many alternatives a condition has, and how many paths a statement. Counts stop at 65, which is above each limit on
// them, so a text of any length is counted in time of its length.
ghost use Rattle.std.specs.Prelude.{◌≡◌, ◌+◌, ◌*◌, length, min};
ghost use Rattle.ps_graph.specs.Alternatives.{alternatives, of_relation, opposite};
ghost use Rattle.ps_compile.specs.inner.Counts.{going, failing, paths_of, held_alternatives};
ghost use Rattle.ps_compile.specs.inner.Members.{any_of, each_of};
ghost use Rattle.ps_graph.specs.Paths.{paths, ways};
ghost use Rattle.ps_tree.specs.declared.sum.Sum.{Sum};

use ps_tree::{Cond, Sign, Stmt, StmtKind, Test};

// How many alternatives a relation of this sign has, or its negation.
fn count_relation(sign: Sign, holds: bool) -> usize
    ensures { (a b : Sum) → result ≡ length (held_alternatives holds sign a b) }
{
    match sign {
        Sign::Equal => if holds { 1 } else { 2 },
        Sign::NotEqual => if holds { 2 } else { 1 },
        Sign::Less => 1,
        Sign::LessEq => 1,
        Sign::Greater => 1,
        Sign::GreaterEq => 1,
    }
}

// Those of a condition that holds, or doesn't.
#[cycle(counts)]
pub(crate) fn count_alternatives(cond: &Cond, holds: bool) -> usize
    ensures { result ≡ min (length (alternatives holds cond.now)) 65 }
{
    match cond {
        Cond::Rel(relation) => count_relation(relation.sign, holds),
        Cond::Not(negated) => count_alternatives(negated.get(), !holds),
        Cond::And(members) => {
            if holds {
                count_each(members.as_slice(), holds)
            } else {
                count_any(members.as_slice(), holds)
            }
        }
        Cond::Or(members) => {
            if holds {
                count_any(members.as_slice(), holds)
            } else {
                count_each(members.as_slice(), holds)
            }
        }
    }
}

// One of each member.
#[cycle(counts)]
fn count_each(members: &[Cond], holds: bool) -> usize
    ensures { result ≡ min (length (each_of holds members.now)) 65 }
{
    let mut all: usize = 1;
    for member in members {
        all = all
            .saturating_mul(count_alternatives(member, holds))
            .min(65);
    }
    all
}

// One of any member.
#[cycle(counts)]
fn count_any(members: &[Cond], holds: bool) -> usize
    ensures { result ≡ min (length (any_of holds members.now)) 65 }
{
    let mut all: usize = 0;
    for member in members {
        all = all
            .saturating_add(count_alternatives(member, holds))
            .min(65);
    }
    all
}

// How many paths go on, and how many fail.
#[derive(Drop)]
pub(crate) struct Count {
    pub(crate) going: usize,
    pub(crate) failing: usize,
}

fn sum_of_products(a: usize, b: usize, c: usize, d: usize) -> usize
    ensures { result ≡ min (a * b + c * d) 65 }
{
    a.saturating_mul(b)
        .saturating_add(c.saturating_mul(d))
        .min(65)
}

// The ways in which a test holds, or fails.
fn count_ways(test: &Test, holds: bool) -> usize
    ensures { result ≡ min (length (ways holds test.now)) 65 }
{
    match test {
        Test::Star => 1,
        Test::Cond(cond) => count_alternatives(cond, holds),
    }
}

// The paths of a statement that is run in one go.
#[cycle(paths)]
fn count_paths(kind: &StmtKind) -> Count
    ensures going { result.going ≡ min (going (paths kind.now)) 65 }
    ensures failing { result.failing ≡ min (failing (paths kind.now)) 65 }
{
    match kind {
        StmtKind::Assign(_variable, _sum) => Count {
            going: 1,
            failing: 0,
        },
        StmtKind::Havoc(_variable) => Count {
            going: 1,
            failing: 0,
        },
        StmtKind::Assume(cond) => Count {
            going: count_alternatives(cond, true),
            failing: 0,
        },
        StmtKind::Assert(cond) => Count {
            going: count_alternatives(cond, true),
            failing: count_alternatives(cond, false),
        },
        StmtKind::Skip => Count {
            going: 1,
            failing: 0,
        },
        StmtKind::Atomic(block) => count_block(block.as_slice()),
        StmtKind::If(test, held, failed) => {
            let holds = count_ways(test, true);
            let first = count_block(held.as_slice());
            let fails = count_ways(test, false);
            let second = count_block(failed.as_slice());
            Count {
                going: sum_of_products(holds, first.going, fails, second.going),
                failing: sum_of_products(holds, first.failing, fails, second.failing),
            }
        }
        StmtKind::While(_test, _block) => Count {
            going: 0,
            failing: 0,
        },
    }
}

// The paths of a block: those that go on do so through each statement, and a path fails in one of them.
#[cycle(paths)]
pub(crate) fn count_block(block: &[Stmt]) -> Count
    ensures going { result.going ≡ min (going (paths_of block.now)) 65 }
    ensures failing { result.failing ≡ min (failing (paths_of block.now)) 65 }
{
    let mut going: usize = 1;
    let mut failing: usize = 0;
    for stmt in block {
        let next = count_paths(&stmt.kind);
        failing = sum_of_products(1, failing, going, next.failing);
        going = going.saturating_mul(next.going).min(65);
    }
    Count { going, failing }
}
