//! Laws over the definitions.
ghost use Rattle.std.specs.Prelude.{◌≡◌, ◌≢◌, ◌≤◌, ℕ, List, Result, drop, length, take};
ghost use Rattle.fsr_order_answers.specs.Order.{IsOrderAnswer};
ghost use Rattle.memory_answers.specs.Handing.{AnswersInMemory, IsOfReply};
ghost use Rattle.program_runs.specs.declared.fault.Answer.{Answer};
ghost use Rattle.program_runs.specs.declared.fault.Fault.{Fault};
ghost use Rattle.program_runs.specs.declared.show.Show.{Show};

/// A buffer that is long enough holds all of the answer, and behind that what it held before.
pub fn whole_in_long_buffers()
    ensures text { (show : Show) (bytes old new : List ℕ) (size status : ℕ) →
        AnswersInMemory (IsOrderAnswer show bytes) old new size status → size ≤ length old → status ≢ 4 →
        (reply : Result Answer Fault) × IsOrderAnswer show bytes reply × IsOfReply reply (take size new) status }
    ensures rest { (show : Show) (bytes old new : List ℕ) (size status : ℕ) →
        AnswersInMemory (IsOrderAnswer show bytes) old new size status → size ≤ length old →
        drop size new ≡ drop size old }
{}

/// A shorter buffer is full of the answer's front.
pub fn fronts_in_short_buffers()
    ensures { (show : Show) (bytes old new : List ℕ) (size status : ℕ) →
        AnswersInMemory (IsOrderAnswer show bytes) old new size status → length old ≤ size → status ≢ 4 →
        (text : List ℕ) × (reply : Result Answer Fault) × IsOrderAnswer show bytes reply × IsOfReply reply text status ×
        (new ≡ take (length old) text) × (size ≡ length text) }
{}
