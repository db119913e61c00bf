//! The kinds of operations.
ghost use Rattle.std.specs.Prelude.{◌≡◌};
ghost use Rattle.serde_json.specs.View.{view};
ghost use Rattle.read_exchange.specs.Exchanges.{form_in, form_named};

use serde_json::Value;

/// The kind of an operation, as its line names it.
#[derive(Clone, Copy)]
pub(crate) enum Form {
    Write,
    /// A write that is over by its end, done or not.
    Maybe,
    Read,
    Refused,
    /// A compare-and-set.
    Cas,
}

/// The kind that is named under its key.
pub(crate) fn form_in(value: &Value) -> Option<Form>
    ensures { result ≡ form_in (view value.now) }
{
    form_named(value.get("kind")?.as_str()?)
}

fn form_named(name: &str) -> Option<Form>
    ensures { result ≡ form_named name.now }
{
    match name {
        "write" => Some(Form::Write),
        "maybe" => Some(Form::Maybe),
        "read" => Some(Form::Read),
        "refused" => Some(Form::Refused),
        "cas" => Some(Form::Cas),
        _ => None,
    }
}
