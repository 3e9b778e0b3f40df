//! Whether one configuration covers another.
ghost use Rattle.std.specs.Prelude.{◌≡◌, ◌≤◌, IfSome, IfNone, length};
ghost use Rattle.ps_config.specs.Configurations.{Configuration, Covers};
ghost use Rattle.ps_cover.specs.Coverings.{IsFirstInjection, images};
ghost use Rattle.ps_config.specs.Zeros.{AreZeroFrom};

use crate::counts::may_cover;
use crate::partial::Partial;
use crate::search::search;
use ps_atom::Atom;
use ps_config::{Config, Few, MOST_THREADS, threads_in};

/// The images of the threads of the smaller configuration, in ascending order of threads, and zeros
/// beyond them.
#[derive(Clone, Copy)]
pub struct Injection {
    pub count: u32,
    pub to: [u32; MOST_THREADS],
}

/// The lexicographically first injection of the threads of the smaller configuration into those of the
/// larger that takes each located thread to one at its location and each atom to an atom. It takes no
/// memory; the cost is that of `covers_lists`.
pub fn covers(small: &Config, large: &Config) -> Option<Injection>
    ensures some { IfSome result (λ i. IsFirstInjection small.now large.now (images i)) }
    ensures none { IfNone result (¬ Covers small.now large.now) }
    ensures rest { IfSome result (λ i. AreZeroFrom i.count i.to) }
{
    covers_lists(small, large.at(), large.atoms())
}

/// The same for a larger configuration of any size, given by its located threads and its atoms.
///
/// First it is compared how many threads are at each location, and how many atoms each predicate has.
/// Then the threads, ascending, get the least images with which there is a way to go on. That is told by
/// a search in depth, which takes in each turn a thread that can go to the fewest threads: where its
/// location and its atoms are found slot by slot. An image that differs from one that failed by a mere
/// swap of two threads is passed over.
///
/// The worst case is exponential in the threads of the smaller one: with n threads there and m in the
/// larger, at most n times m such searches are made, and each tries at most m to the power of n lists of
/// images. In each turn all images of all threads that have none yet are looked at, each in a pass over
/// the larger one's atoms for each atom of the thread.
pub fn covers_lists(small: &Config, at: &[(u32, u32)], atoms: &[Atom]) -> Option<Injection>
    ensures some { IfSome result (λ i. IsFirstInjection small.now
        (record { at = at.now; atoms = atoms.now }) (images i)) }
    ensures none { IfNone result (¬ Covers small.now (record { at = at.now; atoms = atoms.now })) }
    ensures rest { IfSome result (λ i. AreZeroFrom i.count i.to) }
{
    let places = small.at();
    if !may_cover(small, at, atoms) {
        return None;
    }
    let threads = threads_in(places, small.atoms());
    match search(small, at, atoms, &Partial::none(), threads.as_slice()) {
        Some(to) => Some(injection_of(&to)),
        None => None,
    }
}

fn injection_of(to: &Few) -> Injection
    ensures images { images result ≡ to.now }
    ensures rest { AreZeroFrom result.count result.to }
{
    Injection {
        count: to.len() as u32,
        to: to.numbers(),
    }
}
