use span_id::Id;

/// An entered span, and whether its id stands further below already.
#[derive(Clone, Copy, Debug)]
pub(crate) struct Entry {
    pub(crate) id: Id,
    pub(crate) duplicate: bool,
}

/// What stands in the places that no entry has taken yet.
impl Default for Entry {
    fn default() -> Self {
        Entry {
            id: Id::pack(0, 0),
            duplicate: false,
        }
    }
}
