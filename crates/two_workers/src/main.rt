//! Two threads share a registry: each enters the span of a request, tells an event of it, and leaves it. The lines that
//! two layers write of it are printed, sorted, since either thread may come first.
#![tactic(auto)]

mod visits;

use crate::visits::visits;
use span_id::{Fault, Level, Limits, Meta, copy_text};
use span_layers::{ByForm, ByRule, FmtSpan, Form, Hooks, Layer, Layers, Rule, Style};
use span_registry::{Blanks, Kept, Line, Report};
use std::alloc::Global;
use std::io;
use std::io::Write;
use std::marker::Brand;
use std::process::ExitCode;
use std::sync::Wait;
use std::thread::Threads;

fn main(rt: HostRuntime) -> io::Result<ExitCode> {
    match with_two_layers(&rt, rt.alloc()) {
        Ok(report) => {
            print(&rt, report)?;
            Ok(ExitCode::SUCCESS)
        }
        Err(fault) => {
            eprintln!(rt; "{}", fault.text())?;
            Ok(ExitCode::FAILURE)
        }
    }
}

/// How a registry ended that had two layers: one that is told of all that happens to spans, as plain text, and one that
/// is told of events, as JSON.
fn with_two_layers<R: Threads + Wait + Sync>(rt: &R, alloc: Global) -> Result<Report, Fault> {
    let request = meta(alloc, "request")?;
    let mut layers = Layers::new(alloc);
    add(alloc, &mut layers, Form::Compact, FmtSpan::FULL)?;
    add(alloc, &mut layers, Form::Json, FmtSpan::NONE)?;
    visited(rt, alloc, &request, layers)
}

// Adds a layer that admits everything. It needs no closure, since it applies its rule and writes its notes as all do.
fn add(
    alloc: Global,
    layers: &mut Layers<ByRule, ByForm>,
    form: Form,
    spans: FmtSpan,
) -> Result<(), Fault> {
    let layer = Layer {
        style: Style { form, spans },
        rule: Rule::everything(alloc)?,
        hooks: Hooks::by_rule_and_form(),
    };
    match layers.add(layer) {
        Ok(_number) => Ok(()),
        Err((_layer, fault)) => Err(fault),
    }
}

// How a registry of three workers with these layers ended. The three names in its type are picked here.
fn visited<R: Threads + Wait + Sync>(
    rt: &R,
    alloc: Global,
    request: &Meta,
    layers: Layers<ByRule, ByForm>,
) -> Result<Report, Fault> {
    let limits = Limits {
        workers: 3,
        ..Limits::default()
    };
    let blanks = Blanks::new(alloc, &limits.check()?)?;
    let (filters, formatting) = layers.split();
    visits::<Brand, Brand, Brand, _>(
        rt,
        alloc,
        request,
        filters,
        Kept::new(alloc, formatting),
        blanks,
    )
}

// A span's name at the level of information.
fn meta(alloc: Global, name: &str) -> Result<Meta, Fault> {
    let name = copy_text(alloc, name)?;
    let target = copy_text(alloc, "app")?;
    Ok(Meta {
        name,
        target,
        level: Level::Info,
    })
}

/// Prints the lines, sorted, and then how the registry ended.
fn print(rt: &HostRuntime, report: Report) -> io::Result<()> {
    let mut report = report;
    report
        .lines
        .sort_unstable_by(|one: &Line, other: &Line| one.text.cmp(&other.text));
    write_report(rt, &report)
}

fn write_report(rt: &HostRuntime, report: &Report) -> io::Result<()> {
    let mut out = rt.stdout();
    for line in &report.lines {
        out.write_all(line.text.as_slice())?;
        out.write_all(b"\n")?;
    }
    println!(rt;
        "{} calls, {} made, {} closed, {} left",
        report.calls, report.made, report.closed, report.left
    )
}
