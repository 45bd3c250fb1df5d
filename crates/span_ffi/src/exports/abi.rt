//! What a program compares before it makes a registry.
ghost use Rattle.std.specs.Prelude.{◌≡◌, Some};
ghost use Rattle.span_border.specs.Status.{meant};
ghost use Rattle.span_ffi.specs.Abi.{abi_version, struct_sizes};

use crate::data::{
    SpanCounts, SpanField, SpanFound, SpanHeld, SpanLayer, SpanLimits, SpanMeta, SpanNote,
    SpanRule, SpanSizes,
};
use span_border::Status;
use std::mem::size_of;

const _: () = prove!(size_of::<SpanLimits>() == 20);

const _: () = prove!(size_of::<SpanLayer>() == 12);

const _: () = prove!(size_of::<SpanRule>() == 8);

const _: () = prove!(size_of::<SpanMeta>() == 12);

const _: () = prove!(size_of::<SpanField>() == 8);

const _: () = prove!(size_of::<SpanFound>() == 24);

const _: () = prove!(size_of::<SpanHeld>() == 16);

const _: () = prove!(size_of::<SpanCounts>() == 40);

const _: () = prove!(size_of::<SpanNote>() == 40);

/// The version of this interface. It rises where a program that was built for an earlier one would go wrong.
#[unsafe(no_mangle)]
pub extern "C" fn span_abi_version() -> u32
    ensures { result ≡ abi_version }
{
    3
}

/// How many bytes each struct takes in this library.
#[unsafe(no_mangle)]
pub extern "C" fn span_struct_sizes(sizes: &mut SpanSizes) -> u32
    ensures done { meant result ≡ Some Status.Done }
    ensures sizes { sizes.new ≡ struct_sizes }
{
    *sizes = SpanSizes {
        limits: 20,
        layer: 12,
        rule: 8,
        meta: 12,
        field: 8,
        found: 24,
        held: 16,
        counts: 40,
    };
    Status::Done.number()
}
