//! The texts of the paths that a call tells its layers, each made once and shared by all that see it.
ghost use Rattle.std.specs.Prelude.{◌≡◌, ◌++◌, ◌∷◌, [], ℕ, List, Some, true, string_bytes, IsTrue, IfOk, IfErr, OnOk, IfSome};
ghost use Rattle.std.specs.Arc.{arc_str_bytes};
ghost use Rattle.span_id.specs.Bits.{has_bit};
ghost use Rattle.span_forest.specs.Spans.{Spans, IsOpen};
ghost use Rattle.span_forest.specs.Forest.{ForestView};
ghost use Rattle.span_forest.specs.Path.{path, path_text};
ghost use Rattle.span_core.specs.Happening.{path_at};
ghost use Rattle.span_core.specs.inside.Telling.{IsAt, Knows, KnowsPath};
ghost use Rattle.span_core.specs.inside.Remembering.{ReadsOn, Remembers};

use crate::known_paths::KnownPaths;
use crate::recent::Recent;
use span_forest::laws::each_slot_has_one_open_id;
use span_forest::{Forest, PathText, Span};
use span_id::{Bits, Fault, Id, copy_text};
use std::alloc::Global;
use std::sync::ArcStr;

/// A path that a call has told: where it was read, layers that see it there, and its text.
#[derive(Drop)]
pub(crate) struct SharedPath {
    place: Option<Id>,
    same: Bits,
    text: ArcStr,
}

/// The paths that a call has told so far, which further notes share.
#[derive(Drop)]
pub(crate) struct SharedPaths {
    // Most calls tell one path, and take no list for it.
    first: Option<SharedPath>,
    further: Vec<SharedPath>,
}

impl SharedPath {
    // The text, if the layer is among those of which it is known that they see it at this place.
    fn seen(&self, layer: u32, place: &Option<Id>) -> Option<&ArcStr>
        ensures { IfSome result (λ text. (told : List (List ℕ) → List ℕ) (spans : Spans) →
            KnowsPath told spans self.now → arc_str_bytes text.now ≡ told (path_at layer spans place.now)) }
    {
        if self.place == *place && self.same.has(layer) {
            Some(&self.text)
        } else {
            None
        }
    }

    // The text, if it is this one.
    fn same(&self, text: &str) -> Option<&ArcStr>
        ensures { IfSome result (λ same. arc_str_bytes same.now ≡ text.now) }
    {
        if self.text.as_str() == text {
            Some(&self.text)
        } else {
            None
        }
    }

    // Remembers the text for the layers that see it, of those that admit a new span, if it was told at the span's parent.
    fn remember_new(&self, known: &mut KnownPaths, parent: &Option<Id>, bits: Bits, id: Id)
        ensures { (told : List (List ℕ) → List ℕ) (before : Spans) (forest : ForestView) →
            ReadsOn told before parent.now bits forest id → KnowsPath told before self.now →
            Remembers forest known.old → Remembers forest known.new }
    {
        if self.stands_at(parent) {
            known.keep(self.same.and(bits), id, &self.text);
        }
    }

    // Whether it was read at this place: those of a new span were, at its parent.
    fn stands_at(&self, place: &Option<Id>) -> bool
        ensures { result ≡ true → self.now.place ≡ place.now }
    {
        self.place == *place
    }
}

impl SharedPaths {
    // None yet.
    pub(crate) fn none(alloc: Global) -> SharedPaths
        ensures { (told : List (List ℕ) → List ℕ) (spans : Spans) → Knows told spans result }
    {
        SharedPaths {
            first: None,
            further: Vec::new(alloc),
        }
    }

    // Forgets all of them.
    pub(crate) fn clear(&mut self)
        ensures { (told : List (List ℕ) → List ℕ) (spans : Spans) → Knows told spans self.new }
    {
        self.first = None;
        self.further.clear();
    }

    // The text that was told, if the layer is known to see it at this place.
    fn seen(&self, layer: u32, place: &Option<Id>) -> Option<&ArcStr>
        ensures { IfSome result (λ text. (told : List (List ℕ) → List ℕ) (spans : Spans) →
            Knows told spans self.now → arc_str_bytes text.now ≡ told (path_at layer spans place.now)) }
    {
        let first = self.first.as_ref()?;
        if let Some(text) = first.seen(layer, place) {
            return Some(text);
        }
        for path in &self.further {
            if let Some(text) = path.seen(layer, place) {
                return Some(text);
            }
        }
        None
    }

    // The text that was told, if it is this one.
    fn same(&self, text: &str) -> Option<&ArcStr>
        ensures { IfSome result (λ same. arc_str_bytes same.now ≡ text.now) }
    {
        let first = self.first.as_ref()?;
        if let Some(same) = first.same(text) {
            return Some(same);
        }
        for path in &self.further {
            if let Some(same) = path.same(text) {
                return Some(same);
            }
        }
        None
    }

    // Remembers the paths that layers were told of a new span, where notes may share them: each layer that admits it reads
    // its own there from now on.
    pub(crate) fn remember_new(
        self,
        known: &mut KnownPaths,
        parent: &Option<Id>,
        bits: Bits,
        id: Id,
    )
        ensures { (told : List (List ℕ) → List ℕ) (before : Spans) (forest : ForestView) →
            ReadsOn told before parent.now bits forest id → Knows told before self →
            Remembers forest known.old → Remembers forest known.new }
    {
        if let Some(first) = &self.first {
            first.remember_new(known, parent, bits, id);
        }
        for path in &self.further {
            path.remember_new(known, parent, bits, id);
        }
    }

    // One more.
    fn push(&mut self, path: SharedPath) -> Result<(), Fault>
        ensures known { OnOk result ((told : List (List ℕ) → List ℕ) (spans : Spans) →
            KnowsPath told spans path → Knows told spans self.old → Knows told spans self.new) }
        ensures memory { IfErr result (λ fault. fault ≡ Fault.Memory) }
    {
        if self.first.is_some() {
            self.further.push(path)?;
        } else {
            self.first = Some(path);
        }
        Ok(())
    }

    // One more, whose text is told now.
    fn keep(&mut self, path: SharedPath) -> Result<ArcStr, Fault>
        ensures text { IfOk result (λ told. arc_str_bytes told ≡ arc_str_bytes path.text) }
        ensures known { OnOk result ((told : List (List ℕ) → List ℕ) (spans : Spans) →
            KnowsPath told spans path → Knows told spans self.old → Knows told spans self.new) }
        ensures memory { IfErr result (λ fault. fault ≡ Fault.Memory) }
    {
        let told = path.text.clone()?;
        self.push(path)?;
        Ok(told)
    }

    // Tells what was read at a place: by the text that was told, where it is the same, else by a new one.
    fn tell(&mut self, place: &Option<Id>, seen: PathText) -> Result<ArcStr, Fault>
        ensures text { IfOk result (λ told. arc_str_bytes told ≡ string_bytes seen.text) }
        ensures known { OnOk result ((told : List (List ℕ) → List ℕ) (spans : Spans) →
            ((layer : ℕ) → IsTrue (has_bit seen.same.0 layer) →
            string_bytes seen.text ≡ told (path_at layer spans place.now)) →
            Knows told spans self.old → Knows told spans self.new) }
        ensures memory { IfErr result (λ fault. fault ≡ Fault.Memory) }
    {
        let PathText { text, same } = seen;
        let text = self.shared(text)?;
        self.keep(SharedPath {
            place: *place,
            same,
            text,
        })
    }

    // A text to be shared: the one that was told, where it is the same.
    fn shared(&self, text: String) -> Result<ArcStr, Fault>
        ensures text { IfOk result (λ shared. arc_str_bytes shared ≡ string_bytes text) }
        ensures memory { IfErr result (λ fault. fault ≡ Fault.Memory) }
    {
        if let Some(same) = self.same(text.as_str()) {
            return Ok(same.clone()?);
        }
        Ok(ArcStr::from_string(text)?)
    }
}

// The path of a layer at a place: the text that this call told, where the layer sees the same, else one that was told
// there by an earlier call, else one by a walk, which begins at the span of the place if that is in hand.
pub(crate) fn seen_text(
    recent: &mut Recent,
    forest: &Forest,
    paths: &mut SharedPaths,
    layer: u32,
    place: &Option<Id>,
    found: Option<&Span>,
) -> Result<ArcStr, Fault>
    requires open { IfSome place.now (IsOpen forest.now.spans) }
    requires found { IfSome found (IsAt forest.now.spans place.now) }
    requires known { Knows path_text forest.now.spans paths.old }
    requires remembers { Remembers forest.now recent.old.paths }
    ensures text { IfOk result (λ text. arc_str_bytes text ≡ path_text (path_at layer forest.now.spans place.now)) }
    ensures known { OnOk result (Knows path_text forest.now.spans paths.new) }
    ensures remembers { Remembers forest.now recent.new.paths }
    ensures memory { IfErr result (λ fault. fault ≡ Fault.Memory) }
{
    if let Some(text) = paths.seen(layer, place) {
        return Ok(text.clone()?);
    }
    if let Some(text) = known_text(&recent.paths, forest, layer, place) {
        return Ok(text.clone()?);
    }
    walked_text(recent, forest, paths, layer, place, found)
}

// The text that an earlier call told of a layer's path at a span that is open. Where nothing is remembered nothing is
// looked up.
fn known_text<'a>(
    known: &'a KnownPaths,
    forest: &Forest,
    layer: u32,
    place: &Option<Id>,
) -> Option<&'a ArcStr>
    requires open { IfSome place.now (IsOpen forest.now.spans) }
    requires remembers { Remembers forest.now known.now }
    ensures text { IfSome result (λ text. arc_str_bytes text.now ≡ path_text (path_at layer forest.now.spans place.now)) }
{
    if !known.shares {
        return None;
    }
    let id = (*place)?;
    known.get(layer, id)
}

// The path of a layer at a place by a walk, which later calls will know.
fn walked_text(
    recent: &mut Recent,
    forest: &Forest,
    paths: &mut SharedPaths,
    layer: u32,
    place: &Option<Id>,
    found: Option<&Span>,
) -> Result<ArcStr, Fault>
    requires open { IfSome place.now (IsOpen forest.now.spans) }
    requires found { IfSome found (IsAt forest.now.spans place.now) }
    requires known { Knows path_text forest.now.spans paths.old }
    requires remembers { Remembers forest.now recent.old.paths }
    ensures text { IfOk result (λ text. arc_str_bytes text ≡ path_text (path_at layer forest.now.spans place.now)) }
    ensures known { OnOk result (Knows path_text forest.now.spans paths.new) }
    ensures remembers { Remembers forest.now recent.new.paths }
    ensures memory { IfErr result (λ fault. fault ≡ Fault.Memory) }
{
    let seen = text_at(recent.alloc, forest, layer, place, found)?;
    let same = seen.same;
    let text = paths.tell(place, seen)?;
    remember(&mut recent.paths, forest, same, place, &text);
    Ok(text)
}

// Remembers the text of the path that these layers see, if it was read at a span and notes may share it.
fn remember(
    known: &mut KnownPaths,
    forest: &Forest,
    layers: Bits,
    place: &Option<Id>,
    text: &ArcStr,
)
    requires open { IfSome place.now (IsOpen forest.now.spans) }
    requires text { (layer : ℕ) → IsTrue (has_bit layers.0 layer) →
        arc_str_bytes text.now ≡ path_text (path_at layer forest.now.spans place.now) }
    requires remembers { Remembers forest.now known.old }
    ensures remembers { Remembers forest.now known.new }
{
    if !known.shares {
        return;
    }
    each_slot_has_one_open_id(forest);
    if let Some(id) = place {
        known.keep(layers, *id, text);
    }
}

// The same of a path that has one name more.
pub(crate) fn new_text(
    recent: &mut Recent,
    forest: &Forest,
    paths: &mut SharedPaths,
    layer: u32,
    place: &Option<Id>,
    name: &str,
) -> Result<ArcStr, Fault>
    requires known { Knows (λ path. path_text (path ++ name.now ∷ [])) forest.now.spans paths.old }
    requires remembers { Remembers forest.now recent.old.paths }
    ensures text { IfOk result (λ text. arc_str_bytes text
        ≡ path_text (path_at layer forest.now.spans place.now ++ name.now ∷ [])) }
    ensures known { OnOk result (Knows (λ path. path_text (path ++ name.now ∷ [])) forest.now.spans paths.new) }
    ensures remembers { Remembers forest.now recent.new.paths }
    ensures memory { IfErr result (λ fault. fault ≡ Fault.Memory) }
{
    if let Some(text) = paths.seen(layer, place) {
        return Ok(text.clone()?);
    }
    let seen = text_below(recent.alloc, forest, layer, place, name)?;
    paths.tell(place, seen)
}

// This text: the one that was told, where it is the same.
pub(crate) fn same_text(alloc: Global, paths: &mut SharedPaths, text: &str) -> Result<ArcStr, Fault>
    ensures text { IfOk result (λ told. arc_str_bytes told ≡ text.now) }
    ensures known { OnOk result ((told : List (List ℕ) → List ℕ) (spans : Spans) →
        Knows told spans paths.old → Knows told spans paths.new) }
    ensures memory { IfErr result (λ fault. fault ≡ Fault.Memory) }
{
    if let Some(same) = paths.same(text) {
        return Ok(same.clone()?);
    }
    let text = ArcStr::from_str(alloc, text)?;
    paths.keep(SharedPath {
        place: None,
        same: Bits(0),
        text,
    })
}

// The text of a layer's path at a place, and layers that see the same there.
fn text_at(
    alloc: Global,
    forest: &Forest,
    layer: u32,
    place: &Option<Id>,
    found: Option<&Span>,
) -> Result<PathText, Fault>
    requires found { IfSome found (IsAt forest.now.spans place.now) }
    ensures text { IfOk result (λ seen. string_bytes seen.text ≡ path_text (path_at layer forest.now.spans place.now)) }
    ensures same { IfOk result (λ seen. (other : ℕ) → IsTrue (has_bit seen.same.0 other) →
        path_at other forest.now.spans place.now ≡ path_at layer forest.now.spans place.now) }
    ensures memory { IfErr result (λ fault. fault ≡ Fault.Memory) }
{
    let Some(id) = place else {
        let text = copy_text(alloc, "-")?;
        let same = Bits::all();
        return Ok(PathText { text, same });
    };
    match walked(forest, layer, *id, found) {
        Ok(seen) => Ok(seen),
        Err(_) => Err(Fault::Memory),
    }
}

// The same at a span, by a walk which begins at the span itself if that is in hand.
fn walked(forest: &Forest, layer: u32, id: Id, found: Option<&Span>) -> Result<PathText, Fault>
    requires { IfSome found (IsAt forest.now.spans (Some id)) }
    ensures text { IfOk result (λ seen. string_bytes seen.text ≡ path_text (path layer forest.now.spans id)) }
    ensures same { IfOk result (λ seen. (other : ℕ) → IsTrue (has_bit seen.same.0 other) →
        path other forest.now.spans id ≡ path layer forest.now.spans id) }
{
    match found {
        Some(span) => forest.path_text_from(layer, id, span),
        None => forest.path_text(layer, id),
    }
}

// The same with one more name, as that of a new child.
fn text_below(
    alloc: Global,
    forest: &Forest,
    layer: u32,
    place: &Option<Id>,
    name: &str,
) -> Result<PathText, Fault>
    ensures text { IfOk result (λ seen. string_bytes seen.text
        ≡ path_text (path_at layer forest.now.spans place.now ++ name.now ∷ [])) }
    ensures same { IfOk result (λ seen. (other : ℕ) → IsTrue (has_bit seen.same.0 other) →
        path_at other forest.now.spans place.now ≡ path_at layer forest.now.spans place.now) }
    ensures memory { IfErr result (λ fault. fault ≡ Fault.Memory) }
{
    let Some(id) = place else {
        let text = copy_text(alloc, name)?;
        let same = Bits::all();
        return Ok(PathText { text, same });
    };
    match forest.path_text_below(layer, *id, name) {
        Ok(seen) => Ok(seen),
        Err(_) => Err(Fault::Memory),
    }
}
