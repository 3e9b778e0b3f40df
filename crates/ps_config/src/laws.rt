//! Facts about covering that callers cite: each function does no work, and its clause is the fact.
ghost use Rattle.std.specs.Prelude.{◌≡◌, ◌≢◌, ◌∷◌, [], ℕ, List, Contains, map};
ghost use Rattle.ps_atom.specs.declared.atom.Atom.{Atom};
ghost use Rattle.ps_config.specs.Configurations.{Configuration, Covers, IsAt};
ghost use Rattle.ps_config.specs.Sent.{sent};

/// A configuration covers itself.
pub fn covering_is_reflexive()
    ensures { (c : Configuration) → Covers c c }
{}

/// What is covered by a configuration is so by all that cover it.
pub fn covering_is_transitive()
    ensures { (a b c : Configuration) → Covers a b → Covers b c → Covers a c }
{}

/// A configuration covers each that has no more places and atoms.
pub fn more_covers_fewer()
    ensures { (a b : Configuration) → ((t l : ℕ) → IsAt a t l → IsAt b t l)
        → ((q : Atom) → Contains a.atoms q → Contains b.atoms q)
        → Covers a b }
{}

/// Two threads at one location are covered by none that has one thread there.
pub fn two_threads_need_two()
    ensures { (c : Configuration) (s t u l : ℕ) → s ≢ t → IsAt c s l → IsAt c t l
        → (large : Configuration) → ((v : ℕ) → IsAt large v l → v ≡ u) → ¬ Covers c large }
{}

/// A thread at one location isn't covered where none is at that location.
pub fn a_thread_needs_its_location()
    ensures { (c large : Configuration) (t l : ℕ) → IsAt c t l → ((v : ℕ) → ¬ IsAt large v l)
        → ¬ Covers c large }
{}

/// A function of threads is its list of images.
pub fn images_are_the_function()
    ensures { (new : ℕ → ℕ) (threads : List ℕ) (t : ℕ) → Contains threads t
        → sent threads (map new threads) t ≡ new t }
{}
