//! Two threads look packets up while another changes the table. docs/EMBEDDING.md goes through it.
#![tactic(auto)]

ghost use Rattle.std.specs.Prelude.{◌≡◌, ◌<◌, IfOk};

use addr_text::read_v4;
use anyhow::{Context, Result};
use fib_pass::{Publisher, fib_start};
use fib_sync::{Advance, Control};
use module_trait::Steps;
use route_lang::read_script;
use std::alloc::Global;
use std::marker::Brand;
use std::sync::ledger::{Blank, Ledger};
use std::sync::{Arc, Wait};
use std::thread::{join, yield_now};

// IPv4, with 4 banks and at most 2,047 live targets.
type Writer = (Control<32, 4, 2_047>, Publisher<32, 4, 2_047>);

type Pass = fib_pass::Pass<32, 4, 2_047>;

/// Each command makes a version. The last two are published beside the lookups.
const COMMANDS: &[u8] = b"add 10.0.0.0/8 192.0.2.1\nadd 10.1.0.0/16 192.0.2.2
change 10.1.0.0/16 192.0.2.3\nadd 10.2.0.0/16 192.0.2.4\ndelete 10.2.0.0/16\n";

/// Publishes so many versions.
fn publish<R: Wait>(rt: &R, alloc: Global, writer: Writer, versions: u32) -> Result<Writer>
    requires { (writer.1.key ≡ writer.0.plan) × (writer.1.own.version ≡ writer.0.image.version) }
    ensures next { IfOk result (λ w. (w.1.key ≡ w.0.plan) × (w.1.own.version ≡ w.0.image.version)) }
    ensures table { IfOk result (λ w. w.1.table ≡ writer.1.table) }
{
    let (mut control, mut publisher) = writer;
    for _version in 0..versions {
        let Advance::Next(image) = control.advance(alloc)? else {
            break;
        };
        let mut ready = publisher.prepare(alloc, &image)?;
        // A pass that stands at an old version holds the next one up until it leaves.
        for _ in rt.forever() {
            match publisher.try_publish(ready) {
                Ok(_) => break,
                Err(again) => ready = again.ready,
            }
            yield_now();
        }
    }
    Ok((control, publisher))
}

/// A lookup, and 64 in one epoch, which are of one version. The pass is given back in any case.
fn look_up<L: Ledger>(alloc: Global, mut pass: Pass, blank: Blank) -> Pass
    requires { (blank.name ≡ L.name) × (blank.parts ≡ L.parts) × (0 < blank.parts) }
    ensures { result.seat.table ≡ pass.seat.table }
{
    let (Some(changed), Some(stays)) = (read_v4(b"10.1.0.1"), read_v4(b"10.3.0.1")) else {
        return pass;
    };
    let Ok(mut steps) = Steps::<L>::new(alloc, blank) else {
        return pass;
    };
    let _ = pass.lookup(changed, 0, &mut steps);
    let mut inside = pass.enter();
    for flow in 0..64 {
        let _ = inside.lookup(stays, flow, &mut steps);
    }
    inside.leave()
}

/// What a worker does in its thread.
fn work(alloc: Global, pass: Pass) -> Pass
    ensures { result.seat.table ≡ pass.seat.table }
{
    look_up::<Brand>(alloc, pass, Blank::new(1))
}

fn main(rt: HostRuntime) -> Result<()> {
    let alloc: Global = rt.alloc();
    let script = read_script(alloc, COMMANDS)?;
    let (control, first) = Control::begin(alloc, Arc::try_clone(script.inet())?)?;
    let (publisher, mut passes) = fib_start(alloc, script.inet(), &first, 2)?;
    let mut writer = publish(&rt, alloc, (control, publisher), 3)?;
    let mut one = passes.pop().context("no pass")?;
    let mut two = passes.pop().context("no pass")?;
    // From here on no answer is of a version before the third.
    one.learn(writer.1.tell()?);
    two.learn(writer.1.tell()?);
    let workers = || join(&rt, || work(alloc, one), || work(alloc, two));
    let ((one, two), writer) = join(&rt, workers, || publish(&rt, alloc, writer, 2));
    passes.push(one)?;
    passes.push(two)?;
    let totals = writer?.1.close(alloc, passes).ok().context("not closed")?;
    for packets in totals.packets() {
        let gateway = std::net::Ipv4Addr::from_bits(packets.nexthop.gateway().value() as u32);
        println!(rt; "{} packets by {gateway}", packets.count)?;
    }
    let (version, lookups) = (totals.version(), totals.lookups());
    Ok(println!(rt; "version {version} after {lookups} lookups")?)
}
