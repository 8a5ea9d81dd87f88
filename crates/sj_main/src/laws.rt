// A law on commands. Its function does nothing.

ghost use Rattle.std.specs.Prelude.{◌≡◌, ℕ, List};
ghost use Rattle.sj_main.specs.declared.commands.Turns.{Turns};
ghost use Rattle.sj_main.specs.definitions.Commands.{IsOrder};

/// Words are one command at most.
pub fn words_are_one_command()
    ensures { (words : List (List ℕ)) (file other : List ℕ) (turns more : Turns) →
        IsOrder words file turns → IsOrder words other more → (file ≡ other) × (turns ≡ more) }
{}
