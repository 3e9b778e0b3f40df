//! Facts about coverings that callers cite: each function does no work, and its clause is the fact.
ghost use Rattle.std.specs.Prelude.{◌≡◌, ◌∷◌, [], ℕ, List, map};
ghost use Rattle.ps_config.specs.Configurations.{Configuration, Covers};
ghost use Rattle.ps_cover.specs.Coverings.{IsFirstInjection};
ghost use Rattle.ps_cover.specs.Examples.{one_thread, two_threads};
ghost use Rattle.ps_cover.specs.Within.{IsWithinList};

use ps_config::Config;

/// What has a first injection into a configuration is covered by it.
pub fn an_injection_covers()
    ensures { (small large : Configuration) (to : List ℕ) → IsFirstInjection small large to
        → Covers small large }
{}

/// The first injection is the only one, so the answer is determined.
pub fn the_first_is_the_only_one()
    ensures { (small large : Configuration) (one other : List ℕ) → IsFirstInjection small large one
        → IsFirstInjection small large other → one ≡ other }
{}

/// Of two threads at the location of one the least is the image of the first injection, and the other
/// isn't.
pub fn the_least_image_is_first()
    ensures least { IsFirstInjection one_thread two_threads (1 ∷ []) }
    ensures other { ¬ IsFirstInjection one_thread two_threads (2 ∷ []) }
{}

/// The locations of what is covered are within those of what covers it, each as often.
pub fn locations_are_within(small: &Config)
    ensures { (large : Configuration) → Covers small.now large
        → IsWithinList (map (λ p. p.1) small.now.at) (map (λ p. p.1) large.at) }
{
    let _places = small.at();
}
