// A refuted trace, cut between its letters.
ghost use Rattle.std.specs.Prelude.{◌≡◌, ◌<◌, ◌≤◌, ◌^◌, All, IfOk, IsErrOf, OnOk, length, map};
ghost use Rattle.ps_interp.specs.Sums.{SumFits, row_total, weighed};
ghost use Rattle.ps_interp.specs.inner.Meetings.{AreCuts};
ghost use Rattle.ps_interp.specs.inner.Parts.{part_in, part_of};
ghost use Rattle.ps_soundness.specs.Traces.{trace_of};
ghost use Rattle.ps_trace.specs.Traces.{pairs_in};

use crate::bounds::{greatest_trivial, least_false};
use crate::cut_sums::sums_at_cuts;
use crate::weights::{WeighedLetter, weighed_letters};
use ps_command::Setting;
use ps_graph::Graph;
use ps_term::{Term, TermEnd};
use ps_trace::Letter;
use std::alloc::Global;

// The letters of a refuted trace, and the sums at its cuts. Those from `low` up to below `high`, the least false one, are met.
#[derive(Drop)]
pub(crate) struct Cuts<'a> {
    pub(crate) setting: &'a Setting,
    pub(crate) letters: Vec<WeighedLetter<'a>>,
    pub(crate) sums: Vec<Term>,
    pub(crate) low: usize,
    pub(crate) high: usize,
}

// The letters with these multipliers, cut.
pub(crate) fn cuts_of<'a>(
    alloc: Global,
    graph: &'a Graph,
    letters: &[Letter],
    weights: &'a [u128],
) -> Result<Cuts<'a>, TermEnd>
    requires edges { All (λ l. l.edge < length graph.now.edges) letters.now }
    requires few { length letters.now < 2 ^ 32 }
    requires enough { row_total graph.now.setting
        (trace_of graph.now.edges (pairs_in letters.now)) ≤ length weights.now }
    ensures cuts { IfOk result AreCuts }
    ensures setting { IfOk result (λ cuts. cuts.setting.now ≡ graph.now.setting) }
    ensures parts { IfOk result (λ cuts. map part_of cuts.letters.items ≡ map part_in
        (weighed graph.now.setting (trace_of graph.now.edges (pairs_in letters.now))
        weights.now)) }
    ensures fits { OnOk result (All (SumFits graph.now.setting) (weighed graph.now.setting
        (trace_of graph.now.edges (pairs_in letters.now)) weights.now)) }
    ensures past { IsErrOf result TermEnd.Past128
        → ¬ All (SumFits graph.now.setting) (weighed graph.now.setting
        (trace_of graph.now.edges (pairs_in letters.now)) weights.now) }
{
    let list = match weighed_letters(alloc, graph, letters, weights) {
        Ok(list) => list,
        Err(end) => return Err(TermEnd::Memory(end)),
    };
    let sums = match sums_at_cuts(alloc, &graph.setting, list.as_slice()) {
        Ok(sums) => sums,
        Err(end) => return Err(end),
    };
    let high = least_false(sums.as_slice());
    let low = greatest_trivial(sums.as_slice(), high);
    Ok(Cuts {
        setting: &graph.setting,
        letters: list,
        sums,
        low,
        high,
    })
}
