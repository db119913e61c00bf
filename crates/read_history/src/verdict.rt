ghost use Rattle.std.specs.Prelude.{◌≡◌};
ghost use Rattle.read_history.specs.Verdicts.{verdict_text};

use history_core::Verdict;

/// The line that tells a verdict.
pub fn verdict_text(verdict: Verdict) -> &'static str
    ensures { result.now ≡ verdict_text verdict }
{
    match verdict {
        Verdict::Lawful => "lawful\n",
        Verdict::Listing => "unlawful listing\n",
        Verdict::Precedence => "unlawful precedence\n",
        Verdict::Reading => "unlawful reading\n",
        Verdict::Limit => "unlawful limit\n",
    }
}
