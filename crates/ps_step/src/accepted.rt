//! Which configurations are accepting.
ghost use Rattle.std.specs.Prelude.{◌↔◌, IsTrue, Contains};
ghost use Rattle.ps_step.specs.Steps.{AreUninitial, AreEntered, IsAccepting};

use ps_atom::Atom;
use ps_basis::Shown;
use ps_config::Config;
use ps_graph::Graph;

/// Whether every located thread is at the entry of a body, and no atom's predicate has an initial
/// entry. It takes no memory; in time of the threads and the entries of bodies, and of a walk over the
/// entries for each atom.
pub fn accepting<B: Shown>(graph: &Graph, config: &Config, basis: &B) -> bool
    ensures { IsTrue result ↔ IsAccepting graph.now (B.entries basis.now) config.now }
{
    are_entered(graph.entries.as_slice(), config.at()) && are_uninitial(basis, config.atoms())
}

fn are_entered(entries: &[u32], at: &[(u32, u32)]) -> bool
    ensures { IsTrue result ↔ AreEntered entries.now at.now }
{
    for place in at {
        if !has(entries, place.1) {
            return false;
        }
    }
    true
}

fn has(entries: &[u32], location: u32) -> bool
    ensures { IsTrue result ↔ Contains entries.now location }
{
    entries.contains(&location)
}

fn are_uninitial<B: Shown>(basis: &B, atoms: &[Atom]) -> bool
    ensures { IsTrue result ↔ AreUninitial (B.entries basis.now) atoms.now }
{
    for atom in atoms {
        if basis.is_initial(atom.predicate) {
            return false;
        }
    }
    true
}
