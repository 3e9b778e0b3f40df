//! Worked examples of the definitions: each function does no work, and its clauses are the examples.
ghost use Rattle.std.specs.Prelude.{◌≡◌, [], ◌∷◌, map, Some, slice_index_or};
ghost use Rattle.ps_interp.specs.Cuts.{AreBounds};
ghost use Rattle.ps_interp.specs.Entries.{false_triple, initial_of, numbered_threads, triple_of, with_numbers};
ghost use Rattle.ps_interp.specs.Examples.{bare_interpolant, branch_lambda, branch_letters, branch_setting, branch_sums, branch_trace, idle_lambda, idle_trace, three_threads};
ghost use Rattle.ps_interp.specs.Interpolants.{false_interpolant};
ghost use Rattle.ps_interp.specs.Sums.{Weighed};
ghost use Rattle.ps_interp.specs.Weights.{initial_weights};
ghost use Rattle.ps_triple.specs.Examples.{begins, leads, local_setting};

/// A thread that adds 1 to x, chooses, and finds x below 1, refuted by x being at least 0 at first: the sums at the cuts.
pub fn sums_of_the_branch()
    ensures { map (λ (w : Weighed). w.before) branch_letters ≡ branch_sums }
{}

/// All its cuts but the last are met: none is trivial, and only the last is false.
pub fn cuts_of_the_branch()
    ensures { AreBounds branch_letters 0 3 }
{}

/// Its triples, from the last letter to the first, and its initial entry.
pub fn entries_of_the_branch()
    ensures last { (w : Weighed) → triple_of (slice_index_or branch_letters 2 w)
        (Some (bare_interpolant 1)) false_interpolant ≡ leads 1 3 0 (1 ∷ 1 ∷ 0 ∷ []) }
    ensures middle { (w : Weighed) → triple_of (slice_index_or branch_letters 1 w)
        (Some (bare_interpolant 1)) (bare_interpolant 1) ≡ leads 1 1 1 (1 ∷ 1 ∷ []) }
    ensures first { (w : Weighed) → triple_of (slice_index_or branch_letters 0 w)
        (Some (bare_interpolant 2)) (bare_interpolant 1) ≡ leads 2 0 1 (1 ∷ 1 ∷ []) }
    ensures initial { initial_of branch_setting branch_trace branch_lambda (bare_interpolant 2)
        ≡ begins 2 (0 ∷ 1 ∷ 1 ∷ []) }
    ensures beyond { false_triple branch_setting 3 ≡ leads 0 3 0 (1 ∷ 0 ∷ 0 ∷ []) }
{}

/// The thread that runs a command is 0, and the others of the atom after it are 1 and 2 in slot order.
pub fn numbers_of_threads()
    ensures order { numbered_threads 5 three_threads.threads ≡ 5 ∷ 2 ∷ 3 ∷ [] }
    ensures atom { (with_numbers (numbered_threads 5 three_threads.threads) three_threads).threads
        ≡ 1 ∷ 0 ∷ 2 ∷ [] }
{}

/// Of threads 0, 2 and 5 the second is in a slot: the extra thread has the multipliers of the two others, added.
pub fn weights_of_an_extra_thread()
    ensures one { initial_weights local_setting idle_trace idle_lambda (2 ∷ []) ≡ 4 ∷ 8 ∷ [] }
    ensures none { initial_weights local_setting idle_trace idle_lambda [] ≡ 12 ∷ [] }
    ensures two { initial_weights local_setting idle_trace idle_lambda (5 ∷ 0 ∷ [])
        ≡ 5 ∷ 3 ∷ 4 ∷ [] }
{}
