//! Laws over the definitions.
ghost use Rattle.std.specs.Prelude.{◌≡◌, ◌≢◌, ◌⊎◌, ℕ, List, Option};
ghost use Rattle.clap.specs.declared.error.Error.{Error};
ghost use Rattle.fsr_words.specs.Command.{TellsRefusal, WasAskedFor};
ghost use Rattle.fsr_words.specs.declared.command.NoCommand.TheVariants.{NoMemory, Refused, Unknown};

/// Of words that ask for nothing that the program does nothing goes out, and no run of them ends as one with an answer
/// does. Help and the version, where they are asked for, never end as refused words do.
pub fn refusals_show()
    ensures refused { (e : Error) (old new : Option (List ℕ)) (status : ℕ) → TellsRefusal (Refused e) old new status →
        (WasAskedFor e → ⊥) → (new ≡ old) × (status ≢ 0) × (status ≢ 1) × (status ≢ 3) × (status ≢ 5) }
    ensures asked { (e : Error) (old new : Option (List ℕ)) (status : ℕ) → TellsRefusal (Refused e) old new status →
        WasAskedFor e → (status ≢ 1) × (status ≢ 2) × (status ≢ 3) }
    ensures unknown { (old new : Option (List ℕ)) (status : ℕ) → TellsRefusal Unknown old new status →
        (new ≡ old) × (status ≡ 2) }
    ensures memory { (old new : Option (List ℕ)) (status : ℕ) → TellsRefusal NoMemory old new status →
        (new ≡ old) × (status ≡ 4) }
{}
