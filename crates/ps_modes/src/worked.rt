//! Worked examples of texts: each function does no work, and its clauses are the examples.
ghost use Rattle.std.specs.Prelude.{◌≡◌, Some, None, codes};
ghost use Rattle.ps_check.specs.declared.fault.CheckFault.TheVariants.{Predicate, Entry, ConfigNumber, ConfigThread, Accepting, Uncovered};
ghost use Rattle.ps_modes.specs.CheckTexts.{not_accepted_line};
ghost use Rattle.ps_triple.specs.declared.entry_end.EntryFault.TheVariants.{BadNumber, ThreadTwice, FreeThread, Length, Past128, Sum};

/// The line of each kind of fault of an entry.
pub fn faults_of_entries_are_told()
    ensures number { not_accepted_line (Entry 12 BadNumber)
        ≡ codes "not accepted: entry 12: bad number\n" }
    ensures twice { not_accepted_line (Entry 0 ThreadTwice)
        ≡ codes "not accepted: entry 0: thread twice\n" }
    ensures free { not_accepted_line (Entry 0 FreeThread)
        ≡ codes "not accepted: entry 0: free thread\n" }
    ensures length { not_accepted_line (Entry 1 (Length 2 3))
        ≡ codes "not accepted: entry 1: 2 multipliers for 3 rows\n" }
    ensures past { not_accepted_line (Entry 1 Past128)
        ≡ codes "not accepted: entry 1: past 128 bits\n" }
    ensures sum { not_accepted_line (Entry 1 Sum)
        ≡ codes "not accepted: entry 1: sum is no positive constant\n" }
{}

/// The line of each other kind of fault.
pub fn faults_are_told()
    ensures predicate { not_accepted_line (Predicate 1)
        ≡ codes "not accepted: predicate 1: bad number\n" }
    ensures number { not_accepted_line (ConfigNumber 0)
        ≡ codes "not accepted: config 0: bad number\n" }
    ensures twice { not_accepted_line (ConfigThread 10)
        ≡ codes "not accepted: config 10: thread twice\n" }
    ensures accepting { not_accepted_line (Accepting 1)
        ≡ codes "not accepted: config 1 is accepting\n" }
    ensures start { not_accepted_line (Uncovered None 2 (Some 0))
        ≡ codes "not accepted: config start edge 2 thread 0 is not covered\n" }
    ensures fresh { not_accepted_line (Uncovered (Some 1) 0 None)
        ≡ codes "not accepted: config 1 edge 0 thread new is not covered\n" }
{}
