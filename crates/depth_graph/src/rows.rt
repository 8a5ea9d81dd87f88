//! Resuming copies of small statements, by computation.

ghost use Rattle.std.specs.Prelude.{◌≡◌, [], ◌∷◌};
ghost use Rattle.kernel_terms.specs.declared.tables.Tables.{Tables};
ghost use Rattle.kernel_terms.specs.Statements.{Pause};
ghost use Rattle.surf_graph.specs.SmallCopies.{given, sets, emits, emission, pause_then_emission};
ghost use Rattle.depth_graph.specs.definitions.ResumingCopies.{resume};
ghost use Rattle.depth_graph.specs.SmallCopies.{pause_equations, pause_then_emission_equations};
ghost use Rattle.depth_graph.specs.SmallCopies.{pauses, pauses_equations};

/// A pause that is live ends where it ticks, and keeps its register where it is held and kept.
pub fn resuming_pause()
    ensures equations { (tables : Tables) →
        (resume tables Pause given).equations ≡ pause_equations }
    ensures status { (tables : Tables) → (resume tables Pause given).status ≡ 10 }
    ensures live { (tables : Tables) → (resume tables Pause given).live ≡ 8 }
    ensures sets { (tables : Tables) → (resume tables Pause given).sets 0 ≡ sets 11 8 ∷ [] }
{}

/// Nothing is built of an emission, which doesn't resume.
pub fn resuming_emission()
    ensures equations { (tables : Tables) → (resume tables (emission 5) given).equations ≡ [] }
    ensures status { (tables : Tables) → (resume tables (emission 5) given).status ≡ 0 }
{}

/// Where the first part of a sequence resumes and ends, a starting copy of the second stands behind it.
pub fn resuming_sequence()
    ensures equations { (tables : Tables)
        → (resume tables pause_then_emission given).equations ≡ pause_then_emission_equations }
    ensures emits { (tables : Tables)
        → (resume tables pause_then_emission given).emits ≡ emits 5 12 18 ∷ [] }
    ensures live { (tables : Tables) → (resume tables pause_then_emission given).live ≡ 9 }
{}

/// Where the body of a loop resumes and ends, a starting copy of it stands behind it.
pub fn resuming_loop()
    ensures equations { (tables : Tables) →
        (resume tables pauses given).equations ≡ pauses_equations }
    ensures sets { (tables : Tables)
        → (resume tables pauses given).sets 0 ≡ sets 14 11 ∷ sets 16 16 ∷ [] }
{}
