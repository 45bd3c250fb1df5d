//! Lists of fields that have several owners.
ghost use Rattle.std.specs.Prelude.{◌≡◌, [], ◌∷◌, ◌++◌, IfOk, IfErr, OnOk, OnErr, length, map, nat_eq};
ghost use Rattle.span_id.specs.Meta.{key_value, plain_fields};

use crate::copies::{copy_fields, copy_text, write_field, write_fields};
use crate::fault::Fault;
use crate::meta::Field;
use smallvec::SmallVec;
use std::alloc::Global;
use std::fmt::{self, Debug, Formatter, Write};
use std::hash::{Hash, Hasher};
use std::marker::Model;
use std::mem::size_of;
use std::sync::Arc;

// How many fields lie in the block that counts the owners. A list of one field, the commonest, takes no second block; one
// of more is 40 bytes larger.
const IN_PLACE: usize = 1;

/// Fields that are copied or moved in once, and then shared by whoever keeps them, in any threads.
///
/// Contracts see the keys and the values, in order. No fields take no memory.
#[derive(Drop)]
pub struct Fields {
    shared: Option<Arc<SmallVec<Field, IN_PLACE>, Global>>,
}

impl Model for Fields {
    ghost use Rattle.std.specs.Prelude.{List};
    ghost use Rattle.span_id.specs.Meta.{KeyValue};

    ghost Value = { List KeyValue };

    ghost use Rattle.std.specs.Arc.{arc_value};
    ghost use Rattle.span_id.specs.inside.Fields.{fields_of, listed_fields};

    ghost view = { λ fields. fields_of (λ shared. listed_fields (arc_value shared)) fields.shared };
}

impl Fields {
    /// No fields, which takes no memory.
    pub fn none() -> Fields
        ensures { result ≡ [] }
    {
        Fields { shared: None }
    }

    /// This field, which is moved in.
    ///
    /// The only error is `Memory`, where the list can get no count of owners; the field is dropped then.
    pub fn one(alloc: Global, field: Field) -> Result<Fields, Fault>
        ensures field { IfOk result (λ fields. fields ≡ key_value field ∷ []) }
        ensures memory { IfErr result (λ fault. fault ≡ Fault.Memory) }
    {
        Fields::owned(alloc, SmallVec::from_buf(alloc, [field]))
    }

    /// These fields: the list is moved in as it is, with the room that it has, and nothing is copied. An empty list is
    /// dropped, and of one with no room for more than a field only that field is moved.
    ///
    /// The only error is `Memory`, where the list can get no count of owners; it is dropped then.
    pub fn new(alloc: Global, list: Vec<Field>) -> Result<Fields, Fault>
        ensures fields { IfOk result (λ fields. fields ≡ plain_fields list.items) }
        ensures memory { IfErr result (λ fault. fault ≡ Fault.Memory) }
    {
        if list.is_empty() {
            return Ok(Fields::none());
        }
        Fields::owned(alloc, SmallVec::from_vec(list))
    }

    // The fields of a list that is not empty, to which the count of owners comes.
    fn owned(alloc: Global, list: SmallVec<Field, IN_PLACE>) -> Result<Fields, Fault>
        ensures fields { IfOk result (λ fields. fields ≡ plain_fields list.items) }
        ensures memory { IfErr result (λ fault. fault ≡ Fault.Memory) }
    {
        let shared = Arc::new(alloc, list)?;
        Ok(Fields {
            shared: Some(shared),
        })
    }

    /// Equal fields of their own, in the same order. The only error is `Memory`.
    pub fn copy_of(alloc: Global, fields: &[Field]) -> Result<Fields, Fault>
        ensures fields { IfOk result (λ copies. copies ≡ plain_fields fields.now) }
        ensures memory { IfErr result (λ fault. fault ≡ Fault.Memory) }
    {
        if fields.is_empty() {
            return Ok(Fields::none());
        }
        let copies = copy_list(alloc, fields)?;
        Fields::owned(alloc, copies)
    }

    /// Equal fields of their own, in the same order, as `copy_of` makes them: in the memory of these, where they are as
    /// many and have no other owner. A text takes the memory of the one that stood there where that has room for it and
    /// for at most 32 bytes more.
    ///
    /// The only error is `Memory`; these fields are dropped then.
    pub fn copy_over(self, alloc: Global, fields: &[Field]) -> Result<Fields, Fault>
        ensures fields { IfOk result (λ copies. copies ≡ plain_fields fields.now) }
        ensures memory { IfErr result (λ fault. fault ≡ Fault.Memory) }
    {
        let mut these = self;
        if let Some(list) = &mut these.shared {
            if let Some(list) = Arc::get_mut(list) {
                if list.len() == fields.len() {
                    write_fields(alloc, list.as_mut_slice(), fields)?;
                    return Ok(these);
                }
            }
        }
        Fields::copy_of(alloc, fields)
    }

    /// This key and this value as a field of its own, in the memory of these fields, where they are one field too and have
    /// no other owner; each text as `copy_over` copies it.
    ///
    /// The only error is `Memory`; these fields are dropped then.
    pub fn one_over(self, alloc: Global, key: &str, value: &str) -> Result<Fields, Fault>
        ensures field { IfOk result (λ fields. fields ≡ (key.now, value.now) ∷ []) }
        ensures memory { IfErr result (λ fault. fault ≡ Fault.Memory) }
    {
        let mut these = self;
        if let Some(list) = &mut these.shared {
            if let Some(list) = Arc::get_mut(list) {
                if let [field] = list.as_mut_slice() {
                    write_field(alloc, field, key, value)?;
                    return Ok(these);
                }
            }
        }
        let key = copy_text(alloc, key)?;
        let value = copy_text(alloc, value)?;
        Fields::one(alloc, Field { key, value })
    }

    /// One more owner of the same list: nothing is copied. The only error is `Memory`, where one more can't be counted.
    pub fn share(&self) -> Result<Fields, Fault>
        ensures same { IfOk result (λ shared. shared ≡ self.now) }
        ensures memory { IfErr result (λ fault. fault ≡ Fault.Memory) }
    {
        let Some(list) = &self.shared else {
            return Ok(Fields::none());
        };
        let shared = Arc::try_clone(list)?;
        Ok(Fields {
            shared: Some(shared),
        })
    }

    /// The fields, in order.
    pub fn as_slice(&self) -> &[Field]
        ensures { plain_fields result.now ≡ self.now }
    {
        match &self.shared {
            Some(list) => list.as_slice(),
            None => &[],
        }
    }

    /// How many fields there are.
    pub fn len(&self) -> usize
        ensures { result ≡ length self.now }
    {
        self.as_slice().len()
    }

    /// How many bytes of memory the list and its texts have room for, or the greatest number. Contracts see nothing of it.
    pub fn bytes(&self) -> usize {
        match &self.shared {
            Some(list) => bytes_of(&**list),
            None => 0,
        }
    }

    /// Whether there are no fields.
    pub fn is_empty(&self) -> bool
        ensures { result ≡ nat_eq (length self.now) 0 }
    {
        self.len() == 0
    }

    /// Appends equal fields, in the same order. Where the list has another owner, that one keeps the list as it was.
    ///
    /// The only error is `Memory`, after which the fields are as before.
    pub fn extend(&mut self, alloc: Global, fields: &[Field]) -> Result<(), Fault>
        ensures fields { OnOk result (self.new ≡ self.old ++ plain_fields fields.now) }
        ensures unchanged { OnErr result (self.new ≡ self.old) }
        ensures memory { IfErr result (λ fault. fault ≡ Fault.Memory) }
    {
        if fields.is_empty() {
            return Ok(());
        }
        if let Some(list) = &mut self.shared {
            if let Some(list) = Arc::get_mut(list) {
                return append_copies(alloc, list, fields);
            }
        }
        match self.extended(alloc, fields) {
            Ok(extended) => {
                *self = extended;
                Ok(())
            }
            Err(fault) => Err(fault),
        }
    }

    // These fields and equal ones after them, in a list of their own.
    fn extended(&self, alloc: Global, fields: &[Field]) -> Result<Fields, Fault>
        ensures fields { IfOk result (λ extended. extended ≡ self.now ++ plain_fields fields.now) }
        ensures memory { IfErr result (λ fault. fault ≡ Fault.Memory) }
    {
        let mut list = copy_list(alloc, self.as_slice())?;
        append_copies(alloc, &mut list, fields)?;
        Fields::owned(alloc, list)
    }

    /// Appends these fields, as `extend` does; where there are none yet, it shares their list and copies nothing.
    ///
    /// The only error is `Memory`, after which the fields are as before.
    pub fn extend_shared(&mut self, alloc: Global, more: &Fields) -> Result<(), Fault>
        ensures fields { OnOk result (self.new ≡ self.old ++ more.now) }
        ensures unchanged { OnErr result (self.new ≡ self.old) }
        ensures memory { IfErr result (λ fault. fault ≡ Fault.Memory) }
    {
        if self.is_empty() {
            *self = more.share()?;
            return Ok(());
        }
        self.extend(alloc, more.as_slice())
    }
}

fn bytes_of(list: &SmallVec<Field, IN_PLACE>) -> usize {
    let mut bytes = list.capacity().saturating_mul(size_of::<Field>());
    for field in list.as_slice() {
        let texts = field.key.capacity().saturating_add(field.value.capacity());
        bytes = bytes.saturating_add(texts);
    }
    bytes
}

// Equal fields of their own, in the same order: one field alone takes no block, as it lies in the list.
fn copy_list(alloc: Global, fields: &[Field]) -> Result<SmallVec<Field, IN_PLACE>, Fault>
    ensures fields { IfOk result (λ copies. plain_fields copies.items ≡ plain_fields fields.now) }
    ensures memory { IfErr result (λ fault. fault ≡ Fault.Memory) }
{
    if let [field] = fields {
        let copy = field.copy(alloc)?;
        return Ok(SmallVec::from_buf(alloc, [copy]));
    }
    let copies = copy_fields(alloc, fields)?;
    Ok(SmallVec::from_vec(copies))
}

// Equal fields of its own at the list's end. Where memory is refused, the list is as before.
fn append_copies(
    alloc: Global,
    list: &mut SmallVec<Field, IN_PLACE>,
    fields: &[Field],
) -> Result<(), Fault>
    ensures fields { OnOk result (plain_fields list.new.items ≡ plain_fields list.old.items ++ plain_fields fields.now) }
    ensures unchanged { OnErr result (list.new.items ≡ list.old.items) }
    ensures memory { IfErr result (λ fault. fault ≡ Fault.Memory) }
{
    if let [field] = fields {
        let copy = field.copy(alloc)?;
        list.push(copy)?;
        return Ok(());
    }
    let mut copies = copy_list(alloc, fields)?;
    list.append(&mut copies)?;
    Ok(())
}

impl PartialEq for Fields {
    ghost use Rattle.std.specs.Cmp.{partial_equiv_from_equiv};
    ghost use Rattle.std.specs.Cmp.Lexicographic.{pointwise};
    ghost use Rattle.span_id.specs.Meta.{is_same_pair};
    ghost use Rattle.span_id.specs.inside.Fields.{equivalence};

    ghost eq = { pointwise is_same_pair };

    ghost laws = { partial_equiv_from_equiv equivalence };

    fn eq(&self, other: &Fields) -> bool {
        self.as_slice() == other.as_slice()
    }
}

impl Eq for Fields {
    ghost use Rattle.span_id.specs.inside.Fields.{equivalence};

    ghost laws = { equivalence };
}

impl Hash for Fields {
    ghost use Rattle.std.specs.Hash as fed;
    ghost use Rattle.span_id.specs.Meta.{pair_input};
    ghost use Rattle.span_id.specs.inside.Fields.{alike};

    ghost hash_input = { fed.slice pair_input };

    ghost respects_eq = { alike.fed };

    fn hash<H: Hasher>(&self, state: &mut H) {
        self.as_slice().hash(state);
    }
}

impl Debug for Fields {
    fn fmt<W: Write>(&self, f: &mut Formatter<W>) -> fmt::Result {
        self.as_slice().fmt(f)
    }
}
