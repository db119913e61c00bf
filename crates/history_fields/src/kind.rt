ghost use Rattle.std.specs.Prelude.{◌≡◌};
ghost use Rattle.history_fields.specs.Fields.{kind_named};

use history_core::Kind;

/// The kind of an operation of this name.
pub fn kind_named(name: &str) -> Option<Kind>
    ensures { result ≡ kind_named name.now }
{
    match name {
        "write" => Some(Kind::Write),
        "read" => Some(Kind::Read),
        "refused" => Some(Kind::Refused),
        _ => None,
    }
}
