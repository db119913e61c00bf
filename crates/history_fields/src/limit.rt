ghost use Rattle.std.specs.Prelude.{◌≡◌};
ghost use Rattle.history_fields.specs.Fields.{limit_in_range};

use history_core::MAX_LIMIT;

/// Whether a limit is from 1 to the greatest.
pub fn limit_in_range(limit: u64) -> bool
    ensures { result ≡ limit_in_range limit }
{
    1 <= limit && limit <= MAX_LIMIT
}
