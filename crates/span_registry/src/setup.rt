//! What a registry is made with, as a name in its type.

use span_seats::TableName;
use std::marker::Brand;

/// Names what one registry is made with: its limits, the rules of its layers, the forms and the ring of its outlet, the
/// table of its handles' seats, and its history.
///
/// It is the third name in a registry's type, beside the ledger of handles and the ledger of calls. A caller picks it
/// where it calls a function that is generic in the three names, as `Brand`.
pub trait Setup: TableName {
    ghost use Rattle.std.specs.Prelude.{List, Option};
    ghost use Rattle.span_id.specs.declared.limits.Limits.{Limits};
    ghost use Rattle.span_layers.specs.Filter.{Filter};
    ghost use Rattle.span_layers.specs.declared.form.Form.{Form};
    ghost use Rattle.span_outlet.specs.Outlet.{RingName};

    /// The limits.
    ghost limits: { Limits };

    /// The rules of the layers.
    ghost rules: { List Filter };

    /// The forms in which the outlet writes, if it does.
    ghost forms: { List Form };

    /// The ring into which the outlet puts the batches, if it does.
    ghost ring: { Option RingName };
}

impl Setup for Brand {
    ghost use Rattle.std.specs.Prelude.{[], None};
    ghost use Rattle.span_registry.specs.Setup.{no_limits, no_rules};

    ghost limits = { no_limits };

    ghost rules = { no_rules };

    ghost forms = { [] };

    ghost ring = { None };
}
