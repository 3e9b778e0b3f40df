//! What is true of the graph of a program: each function does no work, and its clause is the fact.
ghost use Rattle.std.specs.Prelude.{◌≡◌, List, ℕ};
ghost use Rattle.ps_command.specs.declared.command.Command.{Command};
ghost use Rattle.ps_compile.specs.Compiled.{IsCompiled, IsLaidOut, NoneIsNotEqual};
ghost use Rattle.ps_compile.specs.Conditions.{IsCompilable};
ghost use Rattle.ps_compile.specs.Kept.{KeepsFacts};
ghost use Rattle.ps_compile.specs.Layout.{body_size};
ghost use Rattle.ps_grammar.specs.Programs.{IsProgram};
ghost use Rattle.ps_grammar.specs.Texts.{IsTreeOfText};
ghost use Rattle.ps_graph.specs.Errors.{ErrorsAreTraces, IsGraphOf, IsSafeExactly};
ghost use Rattle.ps_graph.specs.Facts.{IsDeterministic};
ghost use Rattle.ps_graph.specs.declared.edge.Edge.{Edge};
ghost use Rattle.ps_graph.specs.declared.graph.Graph.{Graph};
ghost use Rattle.ps_tree.specs.declared.program.Program.{Program};
ghost use Rattle.ps_tree.specs.declared.stmt.Stmt.{Stmt};

/// A graph that is compiled of a program follows its text: the body begins at the graph's entry, and the
/// same states are initial. So an execution of the text reaches the error exactly where an error trace of
/// the graph runs: from the same state, by the same threads, with the same choices. And the program never
/// fails exactly where no error trace is feasible.
pub fn failures_are_error_traces()
    ensures follows { (program : Program) (graph : Graph)
        → NoneIsNotEqual program.inits → IsCompiled program graph → IsGraphOf program graph }
    ensures traces { (program : Program) (graph : Graph)
        → NoneIsNotEqual program.inits → IsCompiled program graph → ErrorsAreTraces program graph }
    ensures safe { (program : Program) (graph : Graph)
        → NoneIsNotEqual program.inits → IsCompiled program graph → IsSafeExactly program graph }
{}

/// A body that is laid out keeps the facts of a graph: names exist, no edge leaves the error, picks fit
/// and edges stay in their body; and where two edges of a location run with the same choices they agree.
pub fn facts_are_kept()
    ensures kept { (body : List Stmt) (locations : ℕ) (commands : List Command) (edges : List Edge)
        → IsLaidOut body locations commands edges
        → KeepsFacts (body_size body) locations commands edges }
    ensures deterministic { (body : List Stmt) (locations : ℕ) (commands : List Command)
        (edges : List Edge)
        → IsLaidOut body locations commands edges → IsDeterministic commands edges }
{}

/// Each program that is read can be compiled, and so can each tree of a text of the grammar that
/// fits.
pub fn programs_are_compilable()
    ensures read { (bytes : List ℕ) (program : Program)
        → IsProgram bytes program → IsCompilable program }
    ensures trees { (program : Program) → IsTreeOfText program → IsCompilable program }
{}

/// The edges and commands of a program's graph are determined; what else stands in it is told by equations
/// of the definition.
pub fn one_graph_is_compiled()
    ensures edges { (program : Program) (graph other : Graph)
        → IsCompiled program graph → IsCompiled program other → graph.edges ≡ other.edges }
    ensures commands { (program : Program) (graph other : Graph)
        → IsCompiled program graph → IsCompiled program other
        → graph.setting.commands ≡ other.setting.commands }
{}
