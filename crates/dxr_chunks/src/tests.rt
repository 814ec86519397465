//! Drawn batches beside a table built anew, verdicts, and copies.
ghost use Rattle.std.specs.Prelude.{◌≡◌, ◌≢◌, ℕ, ◌+◌, ◌<◌, ◌≤◌, List, Ok, IfOk, OnOk};
ghost use Rattle.prefix_width.specs.Prefix.{Block};
ghost use Rattle.module_trait.specs.Rows.{HaveIndexes};
ghost use Rattle.dxr_chunks.specs.Table.{IsChunksOf};

use crate::ChunkTable;
use module_trait::{Edit, Module, RouteView, ScanTable, Steps, Verdict};
use prefix_width::{Addr, Prefix};
use std::alloc::Global;
use std::marker::Brand;
use std::process::Abort;
use std::sync::ledger::{Blank, Ledger};
use std::test::Fail;
use std::thread::Threads;

/// How many batches are drawn.
const BATCHES: usize = 1_000;

/// The first address of chunk 10.1.
const CHUNK: u128 = 0x0a01_0000;

/// A prefix by its address and length.
type Parts = (u128, u8);

fn prefix(parts: Parts) -> Result<Prefix<32>, Fail> {
    let addr = Addr::new(parts.0).ok_or("no address")?;
    Ok(Prefix::masked(addr, parts.1).ok_or("no prefix")?)
}

// Sets the view, and tells the table.
fn change_to(
    alloc: Global,
    table: &mut ChunkTable,
    view: &mut RouteView<32>,
    parts: Parts,
    after: Option<u16>,
) -> Result<Verdict, Fail>
    requires { IsChunksOf view.old table.old }
{
    let prefix = prefix(parts)?;
    let _len = view.len();
    let before = view.get(&prefix);
    view.set(prefix, after)?;
    match Edit::new(prefix, before, after) {
        Some(edit) => Ok(table.change(alloc, &edit, view)?),
        None => Err("no edit".into()),
    }
}

// Sets the view, and gives the table a batch of one edit.
fn batch_to(
    alloc: Global,
    table: &mut ChunkTable,
    view: &mut RouteView<32>,
    parts: Parts,
    after: Option<u16>,
) -> Result<Verdict, Fail>
    requires { IsChunksOf view.old table.old }
    ensures { result ≡ Ok Verdict.Done → IsChunksOf view.new table.new }
{
    let prefix = prefix(parts)?;
    let _len = view.len();
    let before = view.get(&prefix);
    view.set(prefix, after)?;
    let Some(edit) = Edit::new(prefix, before, after) else {
        return Err("no edit".into());
    };
    let verdict = table.change_batch(alloc, [edit].as_slice(), view)?;
    Ok(verdict)
}

// The same, with the chunks made in pieces.
fn batch_in_pieces<R: Threads + Sync>(
    rt: &R,
    alloc: Global,
    table: &mut ChunkTable,
    view: &mut RouteView<32>,
    parts: Parts,
    after: Option<u16>,
) -> Result<Verdict, Fail>
    requires { IsChunksOf view.old table.old }
    ensures { result ≡ Ok Verdict.Done → IsChunksOf view.new table.new }
{
    let prefix = prefix(parts)?;
    let _len = view.len();
    let before = view.get(&prefix);
    view.set(prefix, after)?;
    let Some(edit) = Edit::new(prefix, before, after) else {
        return Err("no edit".into());
    };
    let verdict = table.change_batch_par(rt, alloc, [edit].as_slice(), view)?;
    Ok(verdict)
}

// Sets the view at two prefixes of different lengths, and gives the table a batch of two edits.
fn batch_both(
    alloc: Global,
    table: &mut ChunkTable,
    view: &mut RouteView<32>,
    first: (Parts, Option<u16>),
    second: (Parts, Option<u16>),
) -> Result<Verdict, Fail>
    requires { IsChunksOf view.old table.old }
    ensures { result ≡ Ok Verdict.Done → IsChunksOf view.new table.new }
{
    let p = prefix(first.0)?;
    let q = prefix(second.0)?;
    let (short, long) = (p.len(), q.len());
    if short == long {
        return Err("one length".into());
    }
    let _rows = view.len();
    let before = view.get(&p);
    view.set(p, first.1)?;
    let _more = view.len();
    let between = view.get(&q);
    view.set(q, second.1)?;
    let Some(one) = Edit::new(p, before, first.1) else {
        return Err("no edit".into());
    };
    let Some(two) = Edit::new(q, between, second.1) else {
        return Err("no edit".into());
    };
    let verdict = table.change_batch(alloc, [two, one].as_slice(), view)?;
    Ok(verdict)
}

fn built(alloc: Global, view: &RouteView<32>) -> Result<ChunkTable, Fail>
    requires { HaveIndexes view.now }
    ensures { IfOk result (λ table. IsChunksOf view.now table) }
{
    let rows = view.rows(alloc)?;
    Ok(ChunkTable::build(alloc, rows.as_slice())?)
}

// Gives a prefix an index of 1 or more.
fn put(view: &mut RouteView<32>, parts: Parts, index: u16) -> Result<(), Fail>
    requires indexes { HaveIndexes view.old }
    requires index { 1 ≤ index }
    ensures { OnOk result (HaveIndexes view.new) }
{
    let prefix = prefix(parts)?;
    view.set(prefix, Some(index))?;
    Ok(())
}

// A prefix of 16 bits, and one of 17 inside it.
fn halves(alloc: Global) -> Result<RouteView<32>, Fail>
    ensures { IfOk result HaveIndexes }
{
    let mut view = RouteView::new(alloc);
    put(&mut view, (CHUNK, 16), 1)?;
    put(&mut view, (CHUNK + 0x8000, 17), 2)?;
    Ok(view)
}

// What the table of the halves answers to one edit, alone and in a batch.
fn verdicts(alloc: Global, parts: Parts) -> Result<(Verdict, Verdict), Fail> {
    let mut view = halves(alloc)?;
    let mut table = built(alloc, &view)?;
    let alone = change_to(alloc, &mut table, &mut view, parts, Some(3))?;
    let mut view = halves(alloc)?;
    let mut table = built(alloc, &view)?;
    let batch = batch_to(alloc, &mut table, &mut view, parts, Some(3))?;
    Ok((alone, batch))
}

// The answer to a batch of two edits.
fn verdict_of_two(alloc: Global, first: Parts, second: Parts) -> Result<Verdict, Fail> {
    let mut view = halves(alloc)?;
    let mut table = built(alloc, &view)?;
    batch_both(
        alloc,
        &mut table,
        &mut view,
        (first, Some(3)),
        (second, Some(3)),
    )
}

#[test]
fn a_batch_is_done_up_to_4096_chunks(rt: HostRuntime) -> Result<(), Fail> {
    let cases = [
        ((CHUNK, 16), Verdict::Done),
        ((0, 0), Verdict::Rebuild),
        ((0x1000_0000, 4), Verdict::Done),
        ((0x1000_0000, 3), Verdict::Rebuild),
    ];
    for (parts, want) in cases {
        let (alone, batch) = verdicts(rt.alloc(), parts)?;
        assert!(rt;
            alone == Verdict::Batch && batch == want,
            "at {}/{}",
            parts.0,
            parts.1
        );
    }
    let two = verdict_of_two(rt.alloc(), (0x1000_0000, 4), (CHUNK, 16))?;
    assert!(rt; two == Verdict::Rebuild);
    Ok(())
}

// Looks an address up in at most 19 steps.
fn ask<L: Ledger>(
    table: &ChunkTable,
    value: u128,
    steps: &mut Steps<L>,
) -> Result<Option<u16>, Fail>
    ensures { (rows : List (Block × ℕ)) → IsChunksOf rows table.now → steps.new ≤ steps.old + 19 }
{
    let addr = Addr::new(value).ok_or("no address")?;
    Ok(table.lookup(addr, steps))
}

// The table answers as the two halves do, with this index outside the second.
fn answers_in_halves<L: Ledger>(
    rt: &impl Abort,
    table: &ChunkTable,
    outer: u16,
    steps: &mut Steps<L>,
) -> Result<(), Fail> {
    let cases = [
        (0, None),
        (0x0a00_ffff, None),
        (0x0a01_0000, Some(outer)),
        (0x0a01_7fff, Some(outer)),
        (0x0a01_8000, Some(2)),
        (0x0a01_ffff, Some(2)),
        (0x0a02_0000, None),
        (0xffff_ffff, None),
    ];
    for (value, index) in cases {
        assert_eq!(rt; ask(table, value, steps)?, index, "at {value}");
    }
    Ok(())
}

fn take_halves<L: Ledger>(rt: &impl Abort, alloc: Global, blank: Blank) -> Result<(), Fail>
    requires name { blank.name ≡ L.name }
    requires parts { blank.parts ≡ L.parts }
    requires some { 0 < blank.parts }
{
    let mut steps = Steps::<L>::new(alloc, blank)?;
    let mut view = halves(alloc)?;
    let mut table = built(alloc, &view)?;
    assert_eq!(rt; table.bound(), 19);
    table.settle(alloc)?;
    let mut copy = table.copy(alloc)?;
    let verdict = batch_to(alloc, &mut copy, &mut view, (CHUNK, 16), Some(3))?;
    assert!(rt; verdict == Verdict::Done);
    answers_in_halves(rt, &table, 1, &mut steps)?;
    answers_in_halves(rt, &copy, 3, &mut steps)
}

#[test]
fn a_chunk_has_two_halves(rt: HostRuntime) -> Result<(), Fail> {
    take_halves::<Brand>(&rt, rt.alloc(), Blank::new(1))
}

#[test]
fn the_preference_rises_at_a_thousand_routes(rt: HostRuntime) {
    for (routes, want) in [(0, 150), (999, 150), (1_000, 240), (262_144, 240)] {
        assert_eq!(rt; ChunkTable::pref(routes), want, "at {routes}");
    }
}

// The next number of a linear congruential generator.
fn next_draw(x: u64) -> u64 {
    x.wrapping_mul(6_364_136_223_846_793_005)
        .wrapping_add(1_442_695_040_888_963_407)
}

// A prefix of 8 to 32 bits in 10.0.0.0/14, often nested with others, and an index or none.
fn drawn(x: u64) -> (Parts, Option<u16>) {
    let value = 0x0a00_0000 + u128::from((x >> 30) & 0xffff) * 4;
    let len = 8 + ((x >> 50) % 25) as u8;
    let index = ((x >> 60) % 4) as u16;
    ((value, len), if index == 0 { None } else { Some(index) })
}

// Both modules answer alike.
fn agree_at<A: Module<32>, B: Module<32>, L: Ledger>(
    rt: &impl Abort,
    tables: (&A, &B),
    value: u128,
    steps: &mut Steps<L>,
) {
    if let Some(addr) = Addr::new(value) {
        let one = tables.0.lookup(addr, steps);
        assert_eq!(rt; tables.1.lookup(addr, steps), one, "at {value}");
    }
}

// Both modules answer alike at the ends of a prefix and beside them, and at those of its chunks.
fn agree_on<A: Module<32>, B: Module<32>, L: Ledger>(
    rt: &impl Abort,
    tables: (&A, &B),
    prefix: &Prefix<32>,
    steps: &mut Steps<L>,
) {
    let first = prefix.first().value();
    let last = prefix.last().value();
    agree_at(rt, tables, first.saturating_sub(1), steps);
    agree_at(rt, tables, first, steps);
    agree_at(rt, tables, last, steps);
    agree_at(rt, tables, last.saturating_add(1), steps);
    for chunk in (first >> 16) as u32..=(last >> 16) as u32 {
        agree_at(rt, tables, u128::from(chunk) << 16, steps);
        agree_at(rt, tables, (u128::from(chunk) << 16) + 65_535, steps);
    }
}

fn plain(alloc: Global, view: &RouteView<32>) -> Result<ScanTable<32>, Fail>
    requires { HaveIndexes view.now }
{
    let rows = view.rows(alloc)?;
    Ok(ScanTable::build(alloc, rows.as_slice())?)
}

// Takes a batch of one drawn edit, and compares the modules where it changed.
fn take_drawn<L: Ledger>(
    rt: &impl Abort,
    alloc: Global,
    table: &mut ChunkTable,
    view: &mut RouteView<32>,
    draw: (Parts, Option<u16>),
    steps: &mut Steps<L>,
) -> Result<(), Fail>
    requires { IsChunksOf view.old table.old }
    ensures { OnOk result (IsChunksOf view.new table.new) }
{
    let (parts, after) = draw;
    let prefix = prefix(parts)?;
    if view.get(&prefix) == after {
        return Ok(());
    }
    match batch_to(alloc, table, view, parts, after)? {
        Verdict::Done => {}
        _ => return Err("not done".into()),
    }
    let plain = plain(alloc, view)?;
    agree_on(rt, (&plain, table), &prefix, steps);
    Ok(())
}

// Now and then the table goes on as a copy of itself.
fn renew(alloc: Global, table: &mut ChunkTable, view: &RouteView<32>) -> Result<(), Fail>
    requires { IsChunksOf view.now table.old }
    ensures { OnOk result (IsChunksOf view.now table.new) }
{
    table.settle(alloc)?;
    *table = table.copy(alloc)?;
    Ok(())
}

fn take_batches<L: Ledger>(rt: &impl Abort, alloc: Global, blank: Blank) -> Result<(), Fail>
    requires name { blank.name ≡ L.name }
    requires parts { blank.parts ≡ L.parts }
    requires some { 0 < blank.parts }
{
    let mut steps = Steps::<L>::new(alloc, blank)?;
    let mut view = halves(alloc)?;
    let mut table = built(alloc, &view)?;
    let mut x = 1;
    for i in 0..BATCHES {
        x = next_draw(x);
        take_drawn(rt, alloc, &mut table, &mut view, drawn(x), &mut steps)?;
        if i % 50 == 0 {
            renew(alloc, &mut table, &view)?;
        }
    }
    Ok(())
}

#[test]
fn drawn_batches_answer_as_the_plain_module(rt: HostRuntime) -> Result<(), Fail> {
    take_batches::<Brand>(&rt, rt.alloc(), Blank::new(1))
}

// A batch that is made in pieces has the verdict of the same batch made whole, and leaves a table
// with the same answers.
fn take_pieces<R: Threads + Sync + Abort, L: Ledger>(
    rt: &R,
    alloc: Global,
    parts: Parts,
    want: Verdict,
    blank: Blank,
) -> Result<(), Fail>
    requires name { blank.name ≡ L.name }
    requires parts { blank.parts ≡ L.parts }
    requires some { 0 < blank.parts }
{
    let mut steps = Steps::<L>::new(alloc, blank)?;
    let mut view = halves(alloc)?;
    let mut whole = built(alloc, &view)?;
    let one = batch_to(alloc, &mut whole, &mut view, parts, Some(3))?;
    let mut view = halves(alloc)?;
    let mut table = built(alloc, &view)?;
    let other = batch_in_pieces(rt, alloc, &mut table, &mut view, parts, Some(3))?;
    assert!(rt; one == want && other == want, "at {}/{}", parts.0, parts.1);
    agree_on(rt, (&whole, &table), &prefix(parts)?, &mut steps);
    Ok(())
}

#[test]
fn one_two_or_eight_pieces_are_the_batch_made_whole(rt: HostRuntime) -> Result<(), Fail> {
    let cases = [
        ((CHUNK, 16), Verdict::Done),
        ((0x0a00_0000, 15), Verdict::Done),
        ((0x0a00_0000, 8), Verdict::Done),
        ((0x1000_0000, 4), Verdict::Done),
        ((0x1000_0000, 3), Verdict::Rebuild),
    ];
    for (parts, want) in cases {
        take_pieces::<HostRuntime, Brand>(&rt, rt.alloc(), parts, want, Blank::new(1))?;
    }
    Ok(())
}
