//! An engine of drawn routes, alone and in images.
ghost use Rattle.std.specs.Prelude.{◌≡◌, ◌≤◌, IfOk, OnOk};
ghost use Rattle.std.specs.Arc.{arc_value};
ghost use Rattle.module_trait.specs.Rows.{HaveIndexes};
ghost use Rattle.engine_set.specs.Engine.{kind_of};

use crate::OutOfMemory;
use crate::fib::Control;
use crate::routes::{add, push, set_module};
use bench_kit::Fault;
use engine_set::{Engine, Image};
use fib_sync::Advance;
use module_trait::RouteView;
use prefix_width::{Kind, Prefix};
use rib_store::{Command, Plan};
use std::alloc::Global;
use std::sync::Arc;

/// What the routes of an image go by.
#[derive(Clone, Copy)]
pub(crate) enum Targets {
    /// One nexthop each, of 64.
    Nexthops,
    /// One group each, of 64 with weights 1 and 3.
    Groups,
}

/// Sets the index of a prefix.
fn put(view: &mut RouteView<32>, prefix: Prefix<32>, index: u16) -> Result<(), OutOfMemory>
    requires indexes { HaveIndexes view.old }
    requires index { 1 ≤ index }
    ensures { OnOk result (HaveIndexes view.new) }
{
    view.set(prefix, Some(index))?;
    Ok(())
}

/// The rows of these routes, at 64 indexes.
fn view_of(alloc: Global, prefixes: &[Prefix<32>]) -> Result<RouteView<32>, OutOfMemory>
    ensures { IfOk result HaveIndexes }
{
    let mut view = RouteView::new(alloc);
    for place in 0..prefixes.len() {
        put(&mut view, prefixes[place], 1 + (place % 64) as u16)?;
    }
    Ok(view)
}

/// An engine of these routes as an image would have it, settled and copied.
pub(crate) fn engine_of(
    alloc: Global,
    kind: Kind,
    prefixes: &[Prefix<32>],
) -> Result<Engine<32>, OutOfMemory>
    ensures { IfOk result (λ engine. kind_of engine ≡ kind) }
{
    let view = view_of(alloc, prefixes)?;
    let rows = view.rows(alloc)?;
    let mut engine = Engine::build(alloc, kind, rows.as_slice())?;
    engine.settle(alloc)?;
    engine.copy(alloc)
}

/// A plan that makes these routes in another module and then chooses this one, which so is built
/// once, of all routes.
fn plan_of(
    alloc: Global,
    kind: Kind,
    prefixes: &[Prefix<32>],
    targets: Targets,
) -> Result<Plan<32>, Fault> {
    let other = match kind {
        Kind::Radix => Kind::Dxr,
        _ => Kind::Radix,
    };
    let mut plan = Plan::new(alloc);
    push(&mut plan, set_module(other))?;
    for place in 0..prefixes.len() {
        let host = (place % 64) as u32;
        push(&mut plan, add(prefixes[place], host, 1)?)?;
        if let Targets::Groups = targets {
            push(&mut plan, add(prefixes[place], host + 1, 3)?)?;
        }
    }
    push(&mut plan, Command::Sync)?;
    push(&mut plan, set_module(kind))?;
    push(&mut plan, Command::Sync)?;
    Ok(plan)
}

/// The image of these routes in this module.
pub(crate) fn image_of(
    alloc: Global,
    kind: Kind,
    prefixes: &[Prefix<32>],
    targets: Targets,
) -> Result<Arc<Image<32>>, Fault>
    ensures { IfOk result (λ image. kind_of (arc_value image).engine ≡ kind) }
{
    let plan = Arc::new(alloc, plan_of(alloc, kind, prefixes, targets)?)?;
    let (mut control, first) = Control::begin(alloc, Arc::try_clone(&plan)?)?;
    let mut image = first;
    for _ in 0..plan.len() {
        let Advance::Next(next) = control.advance(alloc)? else {
            break;
        };
        image = next;
    }
    if image.kind() != kind {
        return Err(Fault::Unmade);
    }
    Ok(image)
}
