//! Words of the command line, computed for small inputs.
#![tactic(auto, unfolding(crate::specs::Commands::command_of))]

ghost use Rattle.std.specs.Prelude.{◌≡◌, [], ◌∷◌, codes, Some, None};
ghost use Rattle.gm_words.specs.Commands.{command_of, run, build, info};

/// The words of a run, and words that are none.
pub fn words_of_a_run()
    ensures run { command_of (codes "run" ∷ codes "a" ∷ codes "j" ∷ codes "1" ∷ codes "65536" ∷ [])
        ≡ Some (run (record { grid = codes "a"; jobs = codes "j"; chunk = 65536 })) }
    ensures no_workers { command_of (codes "run" ∷ codes "a" ∷ codes "j" ∷ codes "0" ∷ codes "1" ∷ []) ≡ None }
    ensures short { command_of (codes "run" ∷ codes "a" ∷ codes "j" ∷ codes "1" ∷ []) ≡ None }
    ensures long { command_of (codes "run" ∷ codes "a" ∷ codes "j" ∷ codes "1" ∷ codes "1" ∷ codes "1" ∷ []) ≡ None }
    ensures option { command_of (codes "run" ∷ codes "-a" ∷ codes "j" ∷ codes "1" ∷ codes "1" ∷ []) ≡ None }
    ensures other_case { command_of (codes "ruN" ∷ codes "a" ∷ codes "j" ∷ codes "1" ∷ codes "1" ∷ []) ≡ None }
    ensures nothing { command_of [] ≡ None }
{}

/// The words of a build, and words that are none.
pub fn words_of_a_build()
    ensures build { command_of (codes "build" ∷ codes "e" ∷ codes "a" ∷ codes "4" ∷ codes "2" ∷ [])
        ≡ Some (build (record { edges = codes "e"; grid = codes "a"; shape = record { n = 4; parts = 2 } })) }
    ensures greatest { command_of (codes "build" ∷ codes "e" ∷ codes "a" ∷ codes "1048576" ∷ codes "64" ∷ [])
        ≡ Some (build (record { edges = codes "e"; grid = codes "a"; shape = record { n = 1048576; parts = 64 } })) }
    ensures one_file { command_of (codes "build" ∷ codes "e" ∷ codes "e" ∷ codes "4" ∷ codes "2" ∷ []) ≡ None }
    ensures more_ranges_than_vertices { command_of (codes "build" ∷ codes "e" ∷ codes "a" ∷ codes "1" ∷ codes "2" ∷ []) ≡ None }
    ensures no_vertices { command_of (codes "build" ∷ codes "e" ∷ codes "a" ∷ codes "0" ∷ codes "0" ∷ []) ≡ None }
    ensures too_many_vertices { command_of (codes "build" ∷ codes "e" ∷ codes "a" ∷ codes "1048577" ∷ codes "2" ∷ []) ≡ None }
    ensures too_many_ranges { command_of (codes "build" ∷ codes "e" ∷ codes "a" ∷ codes "65" ∷ codes "65" ∷ []) ≡ None }
    ensures empty_word { command_of (codes "build" ∷ codes "e" ∷ [] ∷ codes "4" ∷ codes "2" ∷ []) ≡ None }
{}

/// The words of an info, and words that are none.
pub fn words_of_an_info()
    ensures info { command_of (codes "info" ∷ codes "a" ∷ codes "65536" ∷ []) ≡ Some (info (record { grid = codes "a"; chunk = 65536 })) }
    ensures zeros { command_of (codes "info" ∷ codes "a" ∷ codes "0001" ∷ []) ≡ Some (info (record { grid = codes "a"; chunk = 1 })) }
    ensures none { command_of (codes "info" ∷ codes "a" ∷ codes "0" ∷ []) ≡ None }
    ensures more { command_of (codes "info" ∷ codes "a" ∷ codes "65537" ∷ []) ≡ None }
    ensures long { command_of (codes "info" ∷ codes "a" ∷ codes "1" ∷ codes "1" ∷ []) ≡ None }
{}
