ghost use Rattle.std.specs.Prelude.{◌≡◌, ℕ, List, MatchResult};
ghost use Rattle.history_core.specs.declared.history.Op.{Op};
ghost use Rattle.history_core.specs.declared.reason.SearchError.TheVariants.{NoMemory};
ghost use Rattle.history_thinning.specs.Answers.{IsThinnedAnswer, IsOfKept};
ghost use Rattle.history_thinning.specs.Thinnings.{IsThinnedLog};

use history_core::{LogAnswer, SearchError, Thinned};
use history_search::find_order;
use history_thinning::answer_of;
use std::alloc::Global;

/// What a search of the whole log would answer, from few of its operations, which has all that a reason names. It takes
/// n log n steps for n operations that were kept.
pub fn search_thinned(alloc: Global, thinned: &Thinned) -> Result<LogAnswer, SearchError>
    ensures { MatchResult result
        (λ answer. (limit : ℕ) (log : List (Op ℕ)) → IsThinnedLog limit log thinned.now →
        IsThinnedAnswer limit log answer × IsOfKept thinned.now.places answer)
        (λ error. (limit : ℕ) (log : List (Op ℕ)) → IsThinnedLog limit log thinned.now → error ≡ NoMemory) }
{
    match find_order(alloc, &thinned.history) {
        Ok(search) => match answer_of(alloc, thinned, search) {
            Ok(answer) => Ok(answer),
            Err(_) => Err(SearchError::NoMemory),
        },
        Err(error) => Err(error),
    }
}
