//! A law of the definitions: the contract of a function that does nothing.

ghost use Rattle.std.specs.Prelude.{◌≡◌, [], ◌∷◌, Some, codes};
ghost use Rattle.clap.specs.Words.{matches_of, one_of};
ghost use Rattle.sqz_compact_args.specs.CommandLine.{command_line};

/// The values of the options on two command lines: one with only the two paths, and one with each
/// option before them.
pub fn worked_options()
    ensures defaults { let rows = matches_of command_line (codes "sqzcompact" ∷ codes "a" ∷ codes "b" ∷ []) in
        (one_of (codes "workers") rows ≡ Some (codes "4"))
        × (one_of (codes "region-words") rows ≡ Some (codes "65536"))
        × (one_of (codes "census") rows ≡ Some (codes "false"))
        × (one_of (codes "clear-weak") rows ≡ Some (codes "false")) }
    ensures given { let rows = matches_of command_line (codes "sqzcompact" ∷ codes "--workers" ∷ codes "8"
        ∷ codes "--region-words=100" ∷ codes "--census" ∷ codes "--clear-weak" ∷ codes "a" ∷ codes "b" ∷ []) in
        (one_of (codes "workers") rows ≡ Some (codes "8"))
        × (one_of (codes "region-words") rows ≡ Some (codes "100"))
        × (one_of (codes "census") rows ≡ Some (codes "true"))
        × (one_of (codes "clear-weak") rows ≡ Some (codes "true")) }
{}
