//! Layers with closures. A function that hands a boxed closure out may stand in tests alone.
ghost use Rattle.std.specs.Prelude.{◌≡◌, string_bytes};
ghost use Rattle.std.specs.Result.{ForOk};
ghost use Rattle.span_layers.specs.Note.{plain_note};
ghost use Rattle.span_layers.specs.Rule.{pairs_of, is_admitted};
ghost use Rattle.span_layers.specs.Text.{text_of};

use span_component_tests::plans::{Plan, add};
use span_component_tests::watch::{Noting, Refused, Watch};
use span_id::Meta;
use span_layers::{Form, Hooks, Layers, Note, Rule};
use std::alloc::{AllocError, Global};
use std::process::Abort;

/// Closures that do what the watch says.
pub(crate) fn hooks(rt: &impl Abort, alloc: Global, watch: &Watch) -> Hooks {
    let of_rules = watch.share().expect(rt, "memory");
    let of_notes = watch.share().expect(rt, "memory");
    let admit = Box::new(
        alloc,
        move |rule: &Rule, meta: &Meta| -> bool
            ensures { result
                ≡ is_admitted (pairs_of rule.now) (string_bytes meta.now.target) meta.now.level }
        { of_rules.admits(rule, meta) },
    );
    let say = Box::new(
        alloc,
        move |alloc: Global, form: Form, note: &Note| -> Result<Vec<u8>, AllocError>
            ensures { ForOk result (λ text. text.items ≡ text_of form (plain_note note.now)) }
        { of_notes.text(alloc, form, note) },
    );
    Hooks::new(admit.expect(rt, "memory"), say.expect(rt, "memory"))
}

/// Adds a layer of this plan; these texts of it are refused memory.
pub(crate) fn add_plan(
    rt: &impl Abort,
    alloc: Global,
    layers: &mut Layers,
    plan: &Plan,
    refused: Refused,
) {
    let watch = Watch::new(alloc, Noting::Nothing, refused).expect(rt, "memory");
    let hooks = hooks(rt, alloc, &watch);
    add(alloc, layers, plan, hooks).expect(rt, "a layer");
}

/// Layers of these plans.
pub(crate) fn layers(rt: &impl Abort, alloc: Global, plans: &[Plan]) -> Layers {
    let mut layers = Layers::new(alloc);
    for plan in plans {
        add_plan(rt, alloc, &mut layers, plan, Refused::None);
    }
    layers
}
