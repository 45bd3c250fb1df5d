//! The paths that were told lately at spans that are open, to be told again without a walk.
ghost use Rattle.std.specs.Prelude.{◌≡◌, ◌⊎◌, ℕ, IfSome, IsTrue};
ghost use Rattle.std.specs.Arc.{arc_str_bytes};
ghost use Rattle.span_id.specs.Bits.{has_bit};
ghost use Rattle.span_slots.specs.Table.{IsIssued};
ghost use Rattle.span_forest.specs.Spans.{IsOpen};
ghost use Rattle.span_forest.specs.Forest.{ForestView, table_of};
ghost use Rattle.span_forest.specs.Path.{path, path_text};
ghost use Rattle.span_core.specs.inside.Remembering.{IsReadBy, IsRemembered, Remembers};

use span_id::{Bits, Fault, Id};
use std::alloc::Global;
use std::sync::ArcStr;

// How many places there are.
const PLACES: usize = 256;

// At how many of them the paths of a span may stand. Most spans have one path, which all their layers read.
const WAYS: u32 = 4;

// The length of the longest text that is kept, in bytes: so what is kept takes little memory.
const LONGEST: usize = 4096;

/// A path that was told: the span at which it was read, layers that read it there, and its text.
#[derive(Drop)]
pub(crate) struct KnownPath {
    place: Id,
    same: Bits,
    text: ArcStr,
}

/// The paths that were told lately, one at each of 256 places. They stay owned until their spans close or those of other
/// spans take their places: so they are those of open spans, and have at most 1 MiB together.
#[derive(Drop)]
pub(crate) struct KnownPaths {
    // Whether the notes of later calls may share the texts. Where batches are kept they don't, so that no path and no
    // event's field belongs to two batches, and nothing is remembered: a copy for each would cost more than most walks.
    // A meta, and the fields of a span that its new and its close notes tell, may belong to several there too.
    pub(crate) shares: bool,
    // Empty, or one for each place.
    places: Vec<Option<KnownPath>>,
}

impl KnownPaths {
    /// None yet. It takes no memory.
    pub(crate) fn none(alloc: Global, shares: bool) -> KnownPaths
        ensures { (forest : ForestView) → Remembers forest result }
    {
        KnownPaths {
            shares,
            places: Vec::new(alloc),
        }
    }

    /// The text of a layer's path at a span that is open, if it was told lately.
    pub(crate) fn get(&self, layer: u32, id: Id) -> Option<&ArcStr>
        ensures { IfSome result (λ text. (forest : ForestView) → Remembers forest self.now → IsOpen forest.spans id →
            arc_str_bytes text.now ≡ path_text (path layer forest.spans id)) }
    {
        for way in 0..WAYS {
            if let Some(text) = self.get_at(place_of(way, id), layer, id) {
                return Some(text);
            }
        }
        None
    }

    // The same, if it stands at this place.
    fn get_at(&self, at: usize, layer: u32, id: Id) -> Option<&ArcStr>
        ensures { IfSome result (λ text. (forest : ForestView) → Remembers forest self.now → IsOpen forest.spans id →
            arc_str_bytes text.now ≡ path_text (path layer forest.spans id)) }
    {
        let known = self.places.get(at)?.as_ref()?;
        if known.place == id && known.same.has(layer) {
            Some(&known.text)
        } else {
            None
        }
    }

    /// Remembers the text of the path that these layers read at a span, as one more owner, where notes may share it. It
    /// isn't kept where the span has as many other paths as it has places, nor where memory is refused for it, which is
    /// no error.
    pub(crate) fn keep(&mut self, layers: Bits, id: Id, text: &ArcStr)
        ensures { (forest : ForestView) → IsIssued (table_of forest) id → IsReadBy forest layers id (arc_str_bytes text.now) →
            Remembers forest self.old → Remembers forest self.new }
    {
        if !self.shares || text.len() > LONGEST {
            return;
        }
        if self.make_places().is_err() {
            return;
        }
        for way in 0..WAYS {
            if self.keep_at(place_of(way, id), layers, id, text) {
                return;
            }
        }
        for way in 0..WAYS {
            if self.displace_at(place_of(way, id), layers, id, text) {
                return;
            }
        }
    }

    // Keeps a path at this place, if nothing stands there, or it stands there already for other layers. Answers whether
    // it needs no other place.
    fn keep_at(&mut self, at: usize, layers: Bits, id: Id, text: &ArcStr) -> bool
        ensures { (forest : ForestView) → IsIssued (table_of forest) id → IsReadBy forest layers id (arc_str_bytes text.now) →
            Remembers forest self.old → Remembers forest self.new }
    {
        match self.places.get_mut(at) {
            Some(place) => join(place, layers, id, text),
            None => false,
        }
    }

    // Keeps a path in place of one of another span, if such a one stands at this place. Answers whether it needs no other
    // place.
    fn displace_at(&mut self, at: usize, layers: Bits, id: Id, text: &ArcStr) -> bool
        ensures { (forest : ForestView) → IsIssued (table_of forest) id → IsReadBy forest layers id (arc_str_bytes text.now) →
            Remembers forest self.old → Remembers forest self.new }
    {
        match self.places.get_mut(at) {
            Some(place) => displace(place, layers, id, text),
            None => false,
        }
    }

    /// Gives up the paths of spans that closed: they are never read again.
    pub(crate) fn forget(&mut self, closed: &[Id])
        ensures { (forest : ForestView) → Remembers forest self.old → Remembers forest self.new }
    {
        if self.places.is_empty() {
            return;
        }
        for id in closed {
            for way in 0..WAYS {
                self.forget_at(place_of(way, *id), *id);
            }
        }
    }

    // Gives up the path that stands at a place, if it is one of this span.
    fn forget_at(&mut self, at: usize, id: Id)
        ensures { (forest : ForestView) → Remembers forest self.old → Remembers forest self.new }
    {
        if let Some(place) = self.places.get_mut(at) {
            if is_of(place, id) {
                *place = None;
            }
        }
    }

    // Makes the places where there are none, in which nothing stands.
    fn make_places(&mut self) -> Result<(), Fault>
        ensures { (forest : ForestView) → Remembers forest self.old → Remembers forest self.new }
    {
        if !self.places.is_empty() {
            return Ok(());
        }
        self.places.reserve_exact(PLACES)?;
        for _ in 0..PLACES {
            self.places.push(None)?;
        }
        Ok(())
    }
}

// Whether a path of this span stands at a place.
fn is_of(place: &Option<KnownPath>, id: Id) -> bool {
    match place {
        Some(known) => known.place == id,
        None => false,
    }
}

// One of the places at which the paths of a span may stand. The first ones of 256 slots beside each other are apart.
fn place_of(way: u32, id: Id) -> usize {
    let slot = u64::from(id.slot());
    let groups = PLACES as u64 / u64::from(WAYS);
    let nth = (slot / groups + u64::from(way)) % u64::from(WAYS);
    (slot % groups * u64::from(WAYS) + nth) as usize
}

// What is kept of a path, unless one more owner of its text can't be counted.
fn known_path(layers: Bits, id: Id, text: &ArcStr) -> Option<KnownPath>
    ensures { (forest : ForestView) → IsIssued (table_of forest) id → IsReadBy forest layers id (arc_str_bytes text.now) →
        IfSome result (IsRemembered forest) }
{
    let text = text.clone().ok()?;
    Some(KnownPath {
        place: id,
        same: layers,
        text,
    })
}

// Puts a path where nothing stands, or adds layers to those that read it, where it stands already. Answers whether it
// needs no other place.
fn join(place: &mut Option<KnownPath>, layers: Bits, id: Id, text: &ArcStr) -> bool
    ensures { (forest : ForestView) → IsIssued (table_of forest) id → IsReadBy forest layers id (arc_str_bytes text.now) →
        IfSome place.old (IsRemembered forest) → IfSome place.new (IsRemembered forest) }
{
    match place {
        None => {
            *place = known_path(layers, id, text);
            true
        }
        Some(known) => {
            if known.place != id || known.text.as_str() != text.as_str() {
                return false;
            }
            known.same = in_either(known.same, layers);
            true
        }
    }
}

// Puts a path where none of the same span stands. Answers whether it needs no other place.
fn displace(place: &mut Option<KnownPath>, layers: Bits, id: Id, text: &ArcStr) -> bool
    ensures { (forest : ForestView) → IsIssued (table_of forest) id → IsReadBy forest layers id (arc_str_bytes text.now) →
        IfSome place.old (IsRemembered forest) → IfSome place.new (IsRemembered forest) }
{
    if is_of(place, id) {
        return false;
    }
    *place = known_path(layers, id, text);
    true
}

// The layers that are in one of two sets, or in both.
fn in_either(one: Bits, other: Bits) -> Bits
    ensures { (layer : ℕ) → IsTrue (has_bit result.0 layer) →
        IsTrue (has_bit one.0 layer) ⊎ IsTrue (has_bit other.0 layer) }
{
    Bits(one.0 | other.0)
}
