//! Facts that callers cite: each function does no work, and its clause is the fact.
ghost use Rattle.std.specs.Prelude.{◌≡◌, ◌↔◌, ◌&&◌, IsTrue};
ghost use Rattle.ps_atom_text.specs.Forms.{is_ordered, is_small};
ghost use Rattle.ps_config.specs.Configurations.{Configuration};
ghost use Rattle.ps_config.specs.Forms.{IsConfig};

/// The tests that a reader makes of a configuration are met just where it is in form.
pub fn tests_say_the_form()
    ensures { (c : Configuration) → IsTrue (is_ordered c && is_small c) ↔ IsConfig c }
{}
