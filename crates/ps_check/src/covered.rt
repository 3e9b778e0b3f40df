//! Whether a configuration of any size is covered.
ghost use Rattle.std.specs.Prelude.{◌↔◌, IsTrue};
ghost use Rattle.ps_check.specs.inner.Index.{AreCandidates};
ghost use Rattle.ps_config.specs.Configurations.{Covers};
ghost use Rattle.ps_step.specs.Closed.{IsCovered};

use crate::listed::Listed;
use ps_atom::Atom;
use ps_config::Config;
use ps_cover::covers_lists;

/// Whether one of the configurations covers the one of these located threads and atoms, where their candidates are known.
/// It takes no memory; in the time of `covers_lists` for each candidate.
pub(crate) fn is_covered(
    configs: &Listed,
    candidates: &[u32],
    at: &[(u32, u32)],
    atoms: &[Atom],
) -> bool
    requires { AreCandidates configs.now at.now candidates.now }
    ensures { IsTrue result ↔ IsCovered configs.now (record { at = at.now; atoms = atoms.now }) }
{
    let list = configs.as_slice();
    for number in candidates {
        if is_covered_by(&list[*number as usize], at, atoms) {
            return true;
        }
    }
    false
}

fn is_covered_by(config: &Config, at: &[(u32, u32)], atoms: &[Atom]) -> bool
    ensures { IsTrue result ↔ Covers config.now (record { at = at.now; atoms = atoms.now }) }
{
    match covers_lists(config, at, atoms) {
        Some(_) => true,
        None => false,
    }
}
