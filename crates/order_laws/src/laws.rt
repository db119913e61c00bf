//! Laws over the definitions.

ghost use Rattle.std.specs.Prelude.{◌≡◌, ◌≢◌, ◌≤◌, ◌↔◌, ℕ, List, [], Option, Result, false, true};
ghost use Rattle.std.specs.Prelude.{Some, slice_get, unwrap_or};
ghost use Rattle.history_core.specs.Orders.{IsVerdict, KeepsPrecedence};
ghost use Rattle.history_core.specs.Reasons.{IsReason, rule_of};
ghost use Rattle.history_core.specs.Searches.{IsUnlawful};
ghost use Rattle.history_core.specs.declared.history.Op.{Op};
ghost use Rattle.history_core.specs.declared.history.Verdict.TheVariants.{Lawful};
ghost use Rattle.history_core.specs.declared.reason.Reason.{Reason};
ghost use Rattle.history_core.specs.declared.thinned.LogAnswer.{LogAnswer};
ghost use Rattle.history_core.specs.declared.thinned.LogAnswer.TheVariants.{Unlawful};
ghost use Rattle.history_core.specs.declared.thinned.Thinned.{Thinned};
ghost use Rattle.history_thinning.specs.Answers.{NamesKept};
ghost use Rattle.history_thinning.specs.Thinnings.{Equal, IsThinnedLog, one_term};
ghost use Rattle.history_thinning.specs.Tasks.{KeepsTasks};
ghost use Rattle.lines_log.specs.Logs.{IsLinesLog};
ghost use Rattle.kept_lines.specs.declared.keys_log.KeyLog.{KeyLog};
ghost use Rattle.kept_lines.specs.declared.lines_log.LinesLog.{LinesLog};
ghost use Rattle.program_runs.specs.declared.fault.Answer.{Answer};
ghost use Rattle.program_runs.specs.declared.fault.Fault.{Fault};
ghost use Rattle.program_runs.specs.declared.show.Show.{Show};
ghost use Rattle.fsr_order_input.specs.Kinds.{are_lines};
ghost use Rattle.read_line.specs.Lines.{Head};
ghost use Rattle.small_log.specs.Small.{small_lines, small_ops, told_ops};
ghost use Rattle.fsr_log_answers.specs.Logs.{IsLogAnswer};
ghost use Rattle.fsr_keys_answers.specs.ByKeys.{IsAnswerByKeys, IsAnswerIfSmall, is_other_key};
ghost use Rattle.fsr_keys_answers.specs.KeysAnswers.{IsKeyJudged};
ghost use Rattle.print_keys.specs.KeysText.{whole_reason, whole_thinned};
ghost use Rattle.fsr_once_answers.specs.LinesAnswers.{status_of};
ghost use Rattle.fsr_once_answers.specs.Once.{IsAnswerOnce};
ghost use Rattle.print_reasons.specs.LogText.{shown_text};
ghost use Rattle.reason_sentences.specs.Seen.{could_see};
ghost use Rattle.fsr_order_answers.specs.Order.{IsOrderAnswer};
ghost use Rattle.order_laws.specs.OneKey.{AreOfOneKey};
ghost use Rattle.order_laws.specs.Parts.{IsOnceOrNone};
ghost use Rattle.order_laws.specs.Regular.{IsVisible};

use history_thinning::laws::tasks_in_order;

/// Every order of a log in lines that keeps precedence, as a lawful one does, keeps each task's own order.
pub fn lines_in_task_order()
    ensures { (bytes : List ℕ) (log : List (Op ℕ)) (read : LinesLog) → IsLinesLog bytes log read →
        (order : List ℕ) → KeepsPrecedence log order → KeepsTasks log order }
{
    tasks_in_order::<usize>();
}

/// A log whose operations all have one key, or none, is answered as if there were no other keys.
pub fn one_key_as_one()
    ensures { (show : Show) (bytes : List ℕ) (reply : Result Answer Fault) → AreOfOneKey bytes →
        IsAnswerByKeys show bytes reply → IsAnswerIfSmall show show.small bytes reply }
{}

/// With `--strict` the status is 8 exactly where words say how little a lawful log shows, and else what it is without:
/// 0 or 1.
pub fn strict_by_words()
    ensures little { (read : LinesLog) (found : LogAnswer) →
        (status_of true read found ≡ 8) ↔ (shown_text read found ≢ []) }
    ensures other { (read : LinesLog) (found : LogAnswer) → status_of true read found ≢ 8 →
        status_of true read found ≡ status_of false read found }
    ensures unasked { (read : LinesLog) (found : LogAnswer) → status_of false read found ≤ 1 }
{}

/// The small log of an unlawful log, as it is printed, is unlawful by the same rule: the first that any reason has.
pub fn small_is_unlawful()
    ensures rule { (limit : ℕ) (log : List (Op ℕ)) (thinned : Thinned) (reason : Reason) →
        IsThinnedLog limit log thinned → IsUnlawful Equal 0 limit (one_term limit) log reason →
        NamesKept thinned.places reason →
        (again : Reason) × (rule_of again ≡ rule_of reason) × IsUnlawful Equal 0 limit (one_term limit)
        (told_ops (small_lines thinned reason) (small_ops thinned reason)) again }
    ensures none { (limit : ℕ) (log : List (Op ℕ)) (thinned : Thinned) (reason : Reason) →
        IsThinnedLog limit log thinned → IsReason Equal 0 limit log reason →
        NamesKept thinned.places reason →
        (order : List ℕ) → ¬ IsVerdict Equal 0 (one_term limit)
        (told_ops (small_lines thinned reason) (small_ops thinned reason)) order Lawful }
{}

/// So is that of a key whose operations have no lawful order, among those of other keys.
pub fn small_of_key_is_unlawful()
    ensures { (head : Head) (lines : List (List ℕ)) (key : Option (List ℕ)) (one : KeyLog) (reason : Reason) →
        IsKeyJudged head lines key one (Unlawful reason) →
        (again : Reason) × (rule_of again ≡ rule_of reason)
        × IsUnlawful Equal 0 (unwrap_or head.limit 1) (one_term (unwrap_or head.limit 1))
        (told_ops (small_lines (whole_thinned one.places.items one.log.thinned) (whole_reason one.places.items reason))
        (small_ops (whole_thinned one.places.items one.log.thinned) (whole_reason one.places.items reason))) again }
{}

/// The answer to a log in lines whose records don't repeat, by itself, is an answer of the command, unless a small log
/// is asked for or an operation is refused for its key; so is the refusal of what is no document.
pub fn once_as_any()
    ensures { (show : Show) (bytes : List ℕ) (reply : Result Answer Fault) → IsOnceOrNone bytes →
        show.small ≡ false → is_other_key reply ≡ false → IsAnswerOnce show bytes reply →
        IsOrderAnswer show bytes reply }
{}

/// The answer to a document of kind `log`, by itself, is an answer of the command.
pub fn document_as_any()
    ensures { (show : Show) (bytes : List ℕ) (reply : Result Answer Fault) → are_lines bytes ≡ false →
        IsLogAnswer bytes reply → IsOrderAnswer show bytes reply }
{}

/// The writes that an operation could see, as the answer to a log shows them, are those that a read of a regular
/// register may see.
pub fn seen_are_regular()
    ensures each { (ops : List (Op ℕ)) (k end : ℕ) (read : Op ℕ) → slice_get ops k ≡ Some read → read.ends ≡ Some end →
        (i p : ℕ) → slice_get (could_see ops k) i ≡ Some p →
        (write : Op ℕ) × (slice_get ops p ≡ Some write) × IsVisible ops end read write }
    ensures all { (ops : List (Op ℕ)) (k end : ℕ) (read : Op ℕ) → slice_get ops k ≡ Some read → read.ends ≡ Some end →
        (p : ℕ) (write : Op ℕ) → slice_get ops p ≡ Some write → IsVisible ops end read write →
        (i : ℕ) × (slice_get (could_see ops k) i ≡ Some p) }
{}
