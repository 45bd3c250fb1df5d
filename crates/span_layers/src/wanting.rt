//! Which layers want notes of each kind, as masks, so that a call asks no layer by itself.
ghost use Rattle.std.specs.Prelude.{◌≡◌, ◌<◌, ◌==◌, ℕ};
ghost use Rattle.span_id.specs.Bits.{has_bit};
ghost use Rattle.span_layers.specs.declared.note.Kind.{Kind};
ghost use Rattle.span_layers.specs.FmtSpan.{bits_of, is_wanted};
ghost use Rattle.span_layers.specs.inside.Wanting.{mask_of, with_bit};

use crate::note::Kind;
use crate::style::FmtSpan;

/// For each kind of note the layers that want it, as a mask. All want notes of records and events.
#[derive(Clone, Copy)]
pub(crate) struct Wanting {
    all: u64,
    on_new: u64,
    on_enter: u64,
    on_exit: u64,
    on_close: u64,
}

impl Wanting {
    // There are no layers.
    pub(crate) fn none() -> Wanting
        ensures { (kind : Kind) → mask_of result kind ≡ 0 }
    {
        Wanting {
            all: 0,
            on_new: 0,
            on_enter: 0,
            on_exit: 0,
            on_close: 0,
        }
    }

    // The layers that want notes of this kind.
    pub(crate) fn mask(&self, kind: Kind) -> u64
        ensures { result ≡ mask_of self.now kind }
    {
        match kind {
            Kind::OnNew => self.on_new,
            Kind::OnRecord | Kind::OnEvent => self.all,
            Kind::OnEnter => self.on_enter,
            Kind::OnExit => self.on_exit,
            Kind::OnClose => self.on_close,
        }
    }

    // Writes down what the layer of this number wants.
    pub(crate) fn add(&mut self, layer: usize, spans: FmtSpan)
        requires { layer < 64 }
        ensures { (kind : Kind) (number : ℕ) → has_bit (mask_of self.new kind) number
            ≡ with_bit (has_bit (mask_of self.old kind) number) (number == layer) (is_wanted (bits_of spans) kind) }
    {
        self.all = with_layer(self.all, layer, true);
        self.on_new = with_layer(self.on_new, layer, spans.wants(Kind::OnNew));
        self.on_enter = with_layer(self.on_enter, layer, spans.wants(Kind::OnEnter));
        self.on_exit = with_layer(self.on_exit, layer, spans.wants(Kind::OnExit));
        self.on_close = with_layer(self.on_close, layer, spans.wants(Kind::OnClose));
    }
}

// The mask with the bit of this layer set, where it is wanted.
fn with_layer(mask: u64, layer: usize, wanted: bool) -> u64
    requires { layer < 64 }
    ensures { (number : ℕ) → has_bit result number
        ≡ with_bit (has_bit mask number) (number == layer) wanted }
{
    if wanted { mask | 1 << layer } else { mask }
}
