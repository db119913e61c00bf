//! What the evidence of a lost log shows.

ghost use Rattle.std.specs.Prelude.{◌≡◌, ℕ, List};
ghost use Rattle.object_core.specs.declared.operation.Operation.{Operation};
ghost use Rattle.object_core.specs.Logs.{IsLinearizable};
ghost use Rattle.object_registers.specs.Registers.{exchanging_after};
ghost use Rattle.object_registers.specs.declared.exchanging.Exchange.{Exchange};
ghost use Rattle.object_sources.specs.declared.source.Unsourced.{Unsourced};
ghost use Rattle.object_sweep.specs.Rests.{RunForwards};
ghost use Rattle.object_window.specs.declared.find.Window.{Window};
ghost use Rattle.fsr_repeats_answers.specs.declared.evidence.Evidence.TheVariants.{NoSource, Together};
ghost use Rattle.fsr_repeats_answers.specs.Evidence.{IsEvidence, opened};
ghost use Rattle.fsr_repeats_answers.specs.ExchangesText.{end_of};

use object_sources::laws::{early_is_unlawful, unwritten_is_unlawful};
use object_window::laws::window_is_unlawful;

/// What is shown of a lost log shows by itself that the log has no lawful order. A window ends at the moment at which
/// the operation ends at whose end the log is lost.
pub fn evidence_shows()
    ensures source { (log : List (Operation Exchange)) (place : ℕ) (why : Unsourced) →
        IsEvidence log place (NoSource why) → ¬ IsLinearizable exchanging_after opened log }
    ensures together { (log : List (Operation Exchange)) (place : ℕ) (window : Window) → RunForwards log →
        IsEvidence log place (Together window) → ¬ IsLinearizable exchanging_after opened log }
    ensures ends { (log : List (Operation Exchange)) (place : ℕ) (window : Window) →
        IsEvidence log place (Together window) → end_of log place ≡ window.last }
{
    unwritten_is_unlawful();
    early_is_unlawful();
    window_is_unlawful();
}
