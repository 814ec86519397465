//! Copies of nodes keep what they had.
ghost use Rattle.std.specs.Prelude.{◌≡◌, ◌<◌, IsSome};

use crate::{KEYS_MAX, NodeReads, Nodes, Steps};
use std::alloc::Global;
use std::marker::Brand;
use std::process::Abort;
use std::sync::ledger::{Blank, Ledger};
use std::test::Fail;

// The node at a key, from a store or a copy.
fn read<N: NodeReads<Node = u32>, L: Ledger>(nodes: &N, key: usize, steps: &mut Steps<L>) -> u32
    requires { IsSome (N.node nodes.now key) }
{
    *nodes.at(key, steps)
}

fn copies_keep<L: Ledger>(
    rt: &impl Abort,
    alloc: Global,
    steps: &mut Steps<L>,
) -> Result<(), Fail> {
    let mut nodes = Nodes::<u32, 64>::new(alloc);
    nodes.reserve(1)?;
    let key = nodes.put(10);
    nodes.settle(alloc)?;
    let copy = nodes.copy(alloc)?;
    nodes.set(key, 11);
    assert_eq!(rt; read(&copy, key, steps), 10);
    assert_eq!(rt; read(&nodes, key, steps), 11);
    Ok(())
}

fn thaws<L: Ledger>(rt: &impl Abort, alloc: Global, steps: &mut Steps<L>) -> Result<(), Fail> {
    let mut nodes = Nodes::<u32, 64>::new(alloc);
    nodes.reserve(1)?;
    let key = nodes.put(10);
    let copy = nodes.copy(alloc)?.copy(alloc)?;
    let mut thawed = copy.thaw(alloc)?;
    assert_eq!(rt; thawed.take(key), 10);
    assert_eq!(rt; read(&copy, key, steps), 10);
    Ok(())
}

// With a counter of this ledger.
fn keep_their_nodes<L: Ledger>(rt: &impl Abort, alloc: Global, blank: Blank) -> Result<(), Fail>
    requires name { blank.name ≡ L.name }
    requires parts { blank.parts ≡ L.parts }
    requires some { 0 < blank.parts }
{
    let mut steps = Steps::<L>::new(alloc, blank)?;
    copies_keep(rt, alloc, &mut steps)?;
    thaws(rt, alloc, &mut steps)
}

#[test]
fn copies_keep_their_nodes(rt: HostRuntime) -> Result<(), Fail> {
    keep_their_nodes::<Brand>(&rt, rt.alloc(), Blank::new(1))
}

// 2^32 numbers but the last 65,536, which are no key.
#[test]
fn keys_leave_65536_numbers_of_32_bits(rt: HostRuntime) {
    assert_eq!(rt; KEYS_MAX, 4_294_901_760);
}

// No clause tells how much memory a slab takes for the room that it was asked for.
#[test]
fn room_for_one_node_takes_memory_for_few(rt: HostRuntime) -> Result<(), Fail> {
    let mut nodes = Nodes::<u32, 64>::new(rt.alloc());
    nodes.reserve(1)?;
    assert!(rt; nodes.capacity() <= 8);
    Ok(())
}
