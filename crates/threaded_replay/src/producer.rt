//! What makes the versions of a family and publishes them.
ghost use Rattle.std.specs.Prelude.{◌≡◌, ◌+◌, ◌≤◌, IfOk, OnOk, length};
ghost use Rattle.std.specs.Arc.{arc_value};
ghost use Rattle.plan_cut.specs.PlanCourse.{version_before};
ghost use Rattle.fib_sync.specs.Control.{IsImage};
ghost use Rattle.replay_run.specs.Limits.{banks, targets_max};
ghost use Rattle.threaded_replay.specs.Producing.{GoesOn, IsAbreast, IsThrough};

use crate::OutOfMemory;
use crate::naming::{Naming, TiedNote};
use engine_set::Image;
use fib_pass::Publisher;
use fib_sync::{Advance, Control};
use replay_run::{BANKS, TARGETS_MAX};
use std::alloc::Global;
use std::marker::PhantomData;
use std::sync::{Arc, Wait};
use std::thread::{self, Threads};

/// The control of the fib that `N` names, which makes its versions, and what publishes them.
#[derive(Drop)]
pub(crate) struct Producer<const W: u32, N: Naming<W>> {
    pub(crate) control: Control<W, BANKS, TARGETS_MAX>,
    pub(crate) publisher: Publisher<W, BANKS, TARGETS_MAX>,
    pub(crate) of: PhantomData<N>,
}

/// Publishes the image of the next version, and tries again for as long as a pass holds it up.
fn publish<const W: u32, R: Wait>(
    rt: &R,
    alloc: Global,
    image: &Arc<Image<W>>,
    publisher: &mut Publisher<W, BANKS, TARGETS_MAX>,
) -> Result<(), OutOfMemory>
    requires { IsImage banks targets_max publisher.old.key (publisher.old.own.version + 1) (arc_value image.now) }
    ensures seat { OnOk result ((publisher.new.table ≡ publisher.old.table) × (publisher.new.key ≡ publisher.old.key) × (publisher.new.own.readers ≡ publisher.old.own.readers)) }
    ensures version { OnOk result (publisher.new.own.version ≡ publisher.old.own.version + 1) }
{
    let mut ready = publisher.prepare(alloc, image)?;
    for _ in rt.forever() {
        match publisher.try_publish(ready) {
            Ok(_) => return Ok(()),
            Err(again) => ready = again.ready,
        }
        thread::yield_now();
    }
    unreachable!()
}

impl<const W: u32, N: Naming<W>> Producer<W, N> {
    /// Makes the next version and publishes it. Whether there was one.
    fn go_on<R: Threads + Wait + Sync>(
        &mut self,
        rt: &R,
        alloc: Global,
    ) -> Result<bool, OutOfMemory>
        requires { IsAbreast banks targets_max N.table N.plan N.readers self.old.control self.old.publisher }
        ensures { IfOk result (GoesOn banks targets_max N.table N.plan N.readers self.old.control self.new.control self.new.publisher) }
    {
        match self.control.advance_par(rt, alloc)? {
            Advance::Next(image) => {
                publish(rt, alloc, &image, &mut self.publisher)?;
                Ok(true)
            }
            Advance::Finished => Ok(false),
        }
    }

    /// Publishes the versions that the first `synced` commands make, and maybe later ones.
    pub(crate) fn publish_to<R: Threads + Wait + Sync>(
        &mut self,
        rt: &R,
        alloc: Global,
        synced: u32,
    ) -> Result<(), OutOfMemory>
        requires abreast { IsAbreast banks targets_max N.table N.plan N.readers self.old.control self.old.publisher }
        requires within { synced ≤ length N.plan.commands }
        ensures abreast { OnOk result (IsAbreast banks targets_max N.table N.plan N.readers self.new.control self.new.publisher) }
        ensures due { OnOk result (version_before targets_max N.plan synced ≤ self.new.publisher.own.version) }
    {
        'commands: while self.control.commands() < synced {
            if !self.go_on(rt, alloc)? {
                return Ok(());
            }
        }
        Ok(())
    }

    /// Publishes all versions.
    pub(crate) fn publish_all<R: Threads + Wait + Sync>(
        &mut self,
        rt: &R,
        alloc: Global,
    ) -> Result<(), OutOfMemory>
        requires { IsAbreast banks targets_max N.table N.plan N.readers self.old.control self.old.publisher }
        ensures { OnOk result (IsThrough banks targets_max N.table N.plan N.readers self.new.control self.new.publisher) }
    {
        'versions: loop {
            if !self.go_on(rt, alloc)? {
                return Ok(());
            }
        }
    }

    /// A note of the version that is published.
    pub(crate) fn tell(&mut self) -> Result<TiedNote<W, N>, OutOfMemory>
        requires { IsAbreast banks targets_max N.table N.plan N.readers self.old.control self.old.publisher }
        ensures note { IfOk result (λ version. version ≡ self.old.publisher.own.version) }
        ensures abreast { OnOk result (IsAbreast banks targets_max N.table N.plan N.readers self.new.control self.new.publisher) }
    {
        let note = self.publisher.tell()?;
        Ok(TiedNote::new(note))
    }
}
