//! Worked examples of the definitions: each function does no work, and its clause is the example.
ghost use Rattle.ps_file.specs.Examples.{ProofsAre};

/// What whole texts are read as, and which fault is the first.
pub fn proofs()
    ensures { ProofsAre }
{}
