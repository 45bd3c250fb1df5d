//! A line's JSON value as the keys are read from it, whatever keeps its texts.
ghost use Rattle.std.specs.Prelude.{◌≡◌, ◌<◌, length, get_or, is_some, option_and_then};
ghost use Rattle.std.specs.Option.{option_map};
ghost use Rattle.serde_json.specs.Data.{Data};
ghost use Rattle.serde_json.specs.Find.{get, as_null, as_number, as_u64, as_str, as_object};
ghost use Rattle.serde_json.specs.View.{view};
ghost use Rattle.span_json.specs.Seen.{view as seen};
ghost use Rattle.span_script.specs.inside.Lists.{list_in, items_in};

/// A JSON value whose texts live as long as `'v`.
pub(crate) trait JsonValue<'v>: Copy {
    /// The value as data.
    ghost json: { Self → Data };

    /// The value of a key, where this is an object that has it.
    fn member(self, key: &str) -> Option<Self>
        ensures { option_map json result ≡ get key.now (json self) };

    /// The text, where this is one.
    fn text(self) -> Option<&'v str>
        ensures { option_map (λ text. text.now) result ≡ as_str (json self) };

    /// The number, where this is one that is written in digits alone and below 2^64.
    fn number(self) -> Option<u64>
        ensures { result ≡ option_and_then as_u64 (as_number (json self)) };

    fn is_null(self) -> bool
        ensures { result ≡ is_some (as_null (json self)) };

    fn is_object(self) -> bool
        ensures { result ≡ is_some (as_object (json self)) };

    /// How many items it has, where this is a list.
    fn count(self) -> Option<usize>
        ensures { result ≡ option_map length (list_in (json self)) };

    /// The item at this place of a list.
    fn item(self, place: usize) -> Self
        requires { place < length (items_in (json self)) }
        ensures { json result ≡ get_or (items_in (json self)) place (json result) };
}

/// A value that has copies of its texts.
#[derive(Clone, Copy)]
pub(crate) struct Owned<'v>(pub(crate) &'v serde_json::Value);

/// A value whose texts are those of the line, or of the scratch that it was read with.
#[derive(Clone, Copy)]
pub(crate) struct Borrowed<'r, 'v>(pub(crate) &'r span_json::Value<'v>);

impl<'v> JsonValue<'v> for Owned<'v> {
    ghost json = { λ value. view value.0.now };

    fn member(self, key: &str) -> Option<Self> {
        match self.0.get(key) {
            Some(member) => Some(Owned(member)),
            None => None,
        }
    }

    fn text(self) -> Option<&'v str> {
        self.0.as_str()
    }

    fn number(self) -> Option<u64> {
        self.0.as_u64()
    }

    fn is_null(self) -> bool {
        self.0.is_null()
    }

    fn is_object(self) -> bool {
        self.0.is_object()
    }

    fn count(self) -> Option<usize> {
        match self.0.as_array() {
            Some(items) => Some(items.len()),
            None => None,
        }
    }

    fn item(self, place: usize) -> Self {
        match self.0.as_array() {
            Some(items) => Owned(&items[place]),
            None => self,
        }
    }
}

impl<'r, 'v> JsonValue<'v> for Borrowed<'r, 'v> {
    ghost json = { λ value. seen value.0.now };

    fn member(self, key: &str) -> Option<Self> {
        match span_json::member(self.0, key) {
            Some(member) => Some(Borrowed(member)),
            None => None,
        }
    }

    fn text(self) -> Option<&'v str> {
        span_json::as_str(self.0)
    }

    fn number(self) -> Option<u64> {
        span_json::as_u64(self.0)
    }

    fn is_null(self) -> bool {
        span_json::is_null(self.0)
    }

    fn is_object(self) -> bool {
        span_json::is_object(self.0)
    }

    fn count(self) -> Option<usize> {
        match span_json::as_array(self.0) {
            Some(items) => Some(items.len()),
            None => None,
        }
    }

    fn item(self, place: usize) -> Self {
        match span_json::as_array(self.0) {
            Some(items) => Borrowed(&items[place]),
            None => self,
        }
    }
}
