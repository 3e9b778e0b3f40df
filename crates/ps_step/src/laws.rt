//! Facts about steps back: each function does no work, and its clause is the fact.
ghost use Rattle.std.specs.Prelude.{ℕ, List, Contains};
ghost use Rattle.ps_config.specs.Configurations.{Configuration, Covers, threads_at};
ghost use Rattle.ps_graph.specs.declared.graph.Graph.{Graph};
ghost use Rattle.ps_step.specs.Steps.{IsSmallest, Stands};
ghost use Rattle.ps_demand.specs.Demands.{AreTied};
ghost use Rattle.ps_step.specs.Successors.{IsTried};
ghost use Rattle.ps_triple.specs.declared.entry.Entry.{Entry};

/// Each configuration that stands, by any thread, is covered by a smallest one by a thread that occurs,
/// or by any one that doesn't.
pub fn the_smallest_are_enough()
    ensures { (graph : Graph) (entries : List Entry) (from to : Configuration)
        (number thread fresh : ℕ) → AreTied entries → (¬ Contains (threads_at from) fresh)
        → Stands graph entries from number thread to
        → (k : ℕ) × (less : Configuration) × IsTried from fresh k
        × IsSmallest graph entries from number k less × Covers less to }
{}

/// What stands under entries stands under each part of them.
pub fn fewer_entries_demand_less()
    ensures { (graph : Graph) (some all : List Entry) (from to : Configuration) (number thread : ℕ)
        → ((entry : Entry) → Contains some entry → Contains all entry)
        → Stands graph all from number thread to → Stands graph some from number thread to }
{}
