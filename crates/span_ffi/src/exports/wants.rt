//! Whether anything listens, and above which level nothing does.
ghost use Rattle.std.specs.Prelude.{◌≡◌, Some, IfOk, string_bytes};
ghost use Rattle.span_border.specs.Status.{meant};
ghost use Rattle.span_border.specs.Ends.{OnHeld, Keeps};
ghost use Rattle.span_ffi.specs.Registry.{AsksCore, AsksWithCallsites};
ghost use Rattle.span_ffi.specs.Wants.{AnswersWanted, AnswersWantedAt, levels_up_to, AnswersLevels};

use crate::callsites::Callsites;
use crate::reading::read_level;
use crate::registry::RingCore;
use crate::registry_handle::SpanRegistry;
use span_border::{Holds, Status};
use span_id::{Fault, Level, Meta};
use std::alloc::{AllocError, Global};
use std::str;

// What is asked for: a target and a level.
fn asked(alloc: Global, level: Level, target: &str) -> Result<Meta, AllocError>
    ensures target { IfOk result (λ meta. string_bytes meta.target ≡ target.now) }
    ensures level { IfOk result (λ meta. meta.level ≡ level) }
{
    let target = String::from_str(alloc, target)?;
    Ok(Meta {
        name: String::new(alloc),
        target,
        level,
    })
}

fn wants(alloc: Global, core: &RingCore, level: u32, target: &[u8], wanted: &mut u32) -> Status
    ensures wanted { AnswersWanted level target.now wanted.new core.now result core.now }
    ensures kept { Keeps (Some result) wanted.old wanted.new }
{
    let Some(level) = read_level(level) else {
        return Status::BadData;
    };
    let Ok(target) = str::from_utf8(target) else {
        return Status::BadData;
    };
    match asked(alloc, level, target) {
        Ok(meta) => {
            *wanted = u32::from(core.wants(&meta));
            Status::Done
        }
        Err(_) => Status::Refused(Fault::Memory),
    }
}

/// Whether some layer's rule admits what has this target and level: 1, else 0. A layer's rules never change, so the
/// answer doesn't either.
#[unsafe(no_mangle)]
pub extern "C" fn span_registry_wants(
    alloc: Global,
    registry: &mut SpanRegistry,
    level: u32,
    target: &[u8],
    wanted: &mut u32,
) -> u32
    ensures wanted { OnHeld registry.old.held (AsksCore (AnswersWanted level target.now wanted.new)) (meant result)
        registry.new.held }
    ensures kept { Keeps (meant result) wanted.old wanted.new }
{
    let Some(held) = registry.take(alloc) else {
        return Status::EmptyHandle.number();
    };
    let status = wants(alloc, &held.core, level, target, wanted);
    registry.put(held);
    status.number()
}

fn callsite_wants(core: &RingCore, callsites: &Callsites, callsite: u32, wanted: &mut u32) -> Status
    ensures wanted { AnswersWantedAt callsite wanted.new callsites.now core.now result core.now }
    ensures kept { Keeps (Some result) wanted.old wanted.new }
{
    let Some(meta) = callsites.get(callsite) else {
        return Status::NoSuchCallsite;
    };
    *wanted = u32::from(core.wants(meta.as_meta()));
    Status::Done
}

/// What `span_registry_wants` tells of the target and the level of a callsite. It takes no memory.
#[unsafe(no_mangle)]
pub extern "C" fn span_registry_callsite_wants(
    alloc: Global,
    registry: &mut SpanRegistry,
    callsite: u32,
    wanted: &mut u32,
) -> u32
    ensures wanted { OnHeld registry.old.held (AsksWithCallsites (AnswersWantedAt callsite wanted.new)) (meant result)
        registry.new.held }
    ensures kept { Keeps (meant result) wanted.old wanted.new }
{
    let Some(held) = registry.take(alloc) else {
        return Status::EmptyHandle.number();
    };
    let status = callsite_wants(&held.core, &held.callsites, callsite, wanted);
    registry.put(held);
    status.number()
}

// How many levels there are up to this one, and 0 where there is none.
fn levels_up_to(level: Option<Level>) -> u32
    ensures { result ≡ levels_up_to level }
{
    match level {
        Some(level) => u32::from(level.verbosity()) + 1,
        None => 0,
    }
}

fn levels_of(core: &RingCore) -> u32
    ensures { AnswersLevels result core.now Status.Done core.now }
{
    levels_up_to(core.max_level())
}

/// What is wanted has a level below this number. It counts the levels from ERROR up to the most verbose one that a
/// layer's rule has, also one that a later rule of the same prefix overrides: 0 where there are layers and none has a
/// rule, 5 where there is no layer, since spans are made then. It never changes either.
#[unsafe(no_mangle)]
pub extern "C" fn span_registry_max_level(
    alloc: Global,
    registry: &mut SpanRegistry,
    levels: &mut u32,
) -> u32
    ensures levels { OnHeld registry.old.held (AsksCore (AnswersLevels levels.new)) (meant result) registry.new.held }
    ensures kept { Keeps (meant result) levels.old levels.new }
{
    let Some(held) = registry.take(alloc) else {
        return Status::EmptyHandle.number();
    };
    *levels = levels_of(&held.core);
    registry.put(held);
    Status::Done.number()
}
