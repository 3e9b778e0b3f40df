// Steps of a thread along edges.
ghost use Rattle.std.specs.Prelude.{◌≡◌, ◌<◌, IfOk, IsErrOf, IsFalse, MatchOption, OnOk, Some, None, Contains, if◌then◌else◌, length};
ghost use Rattle.std.specs.List.{AllByRecursion};
ghost use Rattle.ps_graph.specs.Facts.{after_edge};
ghost use Rattle.ps_trace.specs.Replay.{EdgeFits};
ghost use Rattle.ps_trace.specs.inner.Leaving.{edges_by};
ghost use Rattle.ps_trace.specs.inner.Trying.{along_listed, AreSized, ListedFit};

use crate::picking::read_havocs;
use ps_command::{RunEnd, Runner};
use ps_graph::{Edge, Graph};

// Goes along the first of the edges of these numbers whose picks the choices fit and whose command runs, and answers its
// target; where there is none the values stay. The list is room for havoc values.
pub(crate) fn go_along_first(
    runner: &mut Runner,
    graph: &Graph,
    numbers: &[u32],
    choices: &[i128],
    havocs: &mut Vec<i128>,
) -> Result<Option<u32>, RunEnd>
    requires sized { AreSized graph.now.setting runner.old }
    requires within { AllByRecursion (λ n. n < length graph.now.edges) numbers.now }
    ensures goes { IfOk result (λ to. MatchOption to
        (along_listed graph.now.setting.commands (edges_by graph.now.edges numbers.now)
        runner.old choices.now ≡ None)
        (λ b. along_listed graph.now.setting.commands (edges_by graph.now.edges numbers.now)
        runner.old choices.now ≡ Some (runner.new, b))) }
    ensures sized { OnOk result (AreSized graph.now.setting runner.new) }
    ensures fits { OnOk result (ListedFit graph.now.setting.commands
        (edges_by graph.now.edges numbers.now) runner.old choices.now) }
    ensures past { IsErrOf result RunEnd.Past128 → ¬ ListedFit graph.now.setting.commands
        (edges_by graph.now.edges numbers.now) runner.old choices.now }
{
    let edges = graph.edges.as_slice();
    for number in numbers {
        let edge = &edges[*number as usize];
        if go_along(runner, graph, edge, choices, havocs)? {
            return Ok(Some(edge.target));
        }
    }
    Ok(None)
}

// Goes along the edge, if the choices fit its picks and its command runs; else the values stay.
fn go_along(
    runner: &mut Runner,
    graph: &Graph,
    edge: &Edge,
    choices: &[i128],
    havocs: &mut Vec<i128>,
) -> Result<bool, RunEnd>
    requires sized { AreSized graph.now.setting runner.old }
    requires edge { Contains graph.now.edges edge.now }
    ensures goes { IfOk result (λ on.
        after_edge graph.now.setting.commands edge.now runner.old choices.now
        ≡ (if on then Some runner.new else None)) }
    ensures stays { IfOk result (λ on. IsFalse on → runner.new ≡ runner.old) }
    ensures sized { OnOk result (AreSized graph.now.setting runner.new) }
    ensures fits { OnOk result
        (EdgeFits graph.now.setting.commands edge.now runner.old choices.now) }
    ensures past { IsErrOf result RunEnd.Past128
        → ¬ EdgeFits graph.now.setting.commands edge.now runner.old choices.now }
{
    if !read_havocs(edge.picks.as_slice(), choices, havocs)? {
        return Ok(false);
    }
    let command = &graph.setting.commands.as_slice()[edge.command as usize];
    runner.run(command, havocs.as_slice())
}
