//! Where a worker's notes wait for it.
ghost use Rattle.std.specs.Prelude.{◌≤◌, IfSome};
ghost use Rattle.plan_cut.specs.PlanCourse.{version_before};
ghost use Rattle.replay_run.specs.Limits.{targets_max};

use crate::OutOfMemory;
use crate::naming::{Naming, TiedNote};
use std::alloc::Global;
use std::collections::BTreeMap;
use std::marker::Model;
use std::sync::{Condvar, Mutex, Wait};

/// The notes of one family, each by the number of commands up to and with its sync line. A note's
/// version is no older than the last that these commands make.
#[derive(Drop)]
struct Shelf<const W: u32, N: Naming<W>> {
    notes: BTreeMap<u32, TiedNote<W, N>>,
}

impl<const W: u32, N: Naming<W>> Model for Shelf<W, N> {
    ghost use Rattle.std.specs.Prelude.{ℕ, ◌≤◌, IfSome, List};
    ghost use Rattle.std.specs.BTreeMap.{get};
    ghost use Rattle.std.specs.Ordering.{nat_cmp};
    ghost use Rattle.plan_cut.specs.PlanCourse.{version_before};
    ghost use Rattle.replay_run.specs.Limits.{targets_max};

    ghost Value = { List (ℕ × ℕ) };

    ghost view = { λ s. s.notes.entries };

    ghost invariant = { λ s. (synced : ℕ) → IfSome (get nat_cmp s.notes synced) (λ version. version_before targets_max N.plan synced ≤ version) };
}

impl<const W: u32, N: Naming<W>> Shelf<W, N> {
    ghost use Rattle.std.specs.Prelude.{◌≡◌, ◌≤◌, [], OnErr, OnOk, IfSome, is_some};
    ghost use Rattle.std.specs.Map.{lookup, remove_entry};
    ghost use Rattle.std.specs.BTreeMap.{insert_entry, is_at};
    ghost use Rattle.std.specs.Ordering.{nat_cmp};

    /// No note has come.
    fn new(alloc: Global) -> Shelf<W, N>
        ensures { result ≡ [] }
    {
        Shelf {
            notes: BTreeMap::new(alloc),
        }
    }

    /// Whether the note of a sync line has come.
    fn has(&self, synced: u32) -> bool
        ensures { result ≡ is_some (lookup (is_at (nat_cmp synced)) self.now) }
    {
        self.notes.contains_key(&synced)
    }

    /// Takes the note of a sync line in. An error leaves the others as they were.
    fn put(&mut self, synced: u32, note: TiedNote<W, N>) -> Result<(), OutOfMemory>
        requires { version_before targets_max N.plan synced ≤ note }
        ensures ok { OnOk result (self.new ≡ insert_entry nat_cmp self.old synced note) }
        ensures err { OnErr result (self.new ≡ self.old) }
    {
        if self.notes.insert(synced, note).is_err() {
            return Err(OutOfMemory);
        }
        Ok(())
    }

    /// Gives the note of a sync line out, if it has come.
    fn take(&mut self, synced: u32) -> Option<TiedNote<W, N>>
        ensures note { result ≡ lookup (is_at (nat_cmp synced)) self.old }
        ensures since { IfSome result (λ version. version_before targets_max N.plan synced ≤ version) }
        ensures others { self.new ≡ remove_entry (is_at (nat_cmp synced)) self.old }
    {
        self.notes.remove(&synced)
    }
}

/// What lies under a worker's lock.
#[derive(Drop)]
struct Mailbox<A: Naming<32>, B: Naming<128>> {
    inet: Shelf<32, A>,
    inet6: Shelf<128, B>,
    // Whether the control has ended for want of memory: no further note comes.
    ended: bool,
}

/// A worker's lock, under which its notes wait by family and sync line.
#[derive(Drop)]
pub(crate) struct Post<A: Naming<32>, B: Naming<128>> {
    mail: Mutex<Mailbox<A, B>>,
    came: Condvar,
}

impl<A: Naming<32>, B: Naming<128>> Post<A, B> {
    pub(crate) fn new(alloc: Global) -> Post<A, B> {
        Post {
            mail: Mutex::new(Mailbox {
                inet: Shelf::new(alloc),
                inet6: Shelf::new(alloc),
                ended: false,
            }),
            came: Condvar::new(),
        }
    }

    /// Hands a note of IPv4 over.
    pub(crate) fn put_inet<R: Wait>(
        &self,
        rt: &R,
        synced: u32,
        note: TiedNote<32, A>,
    ) -> Result<(), OutOfMemory>
        requires { version_before targets_max A.plan synced ≤ note }
    {
        self.mail.lock(rt).inet.put(synced, note)?;
        self.came.notify_all();
        Ok(())
    }

    /// Hands a note of IPv6 over.
    pub(crate) fn put_inet6<R: Wait>(
        &self,
        rt: &R,
        synced: u32,
        note: TiedNote<128, B>,
    ) -> Result<(), OutOfMemory>
        requires { version_before targets_max B.plan synced ≤ note }
    {
        self.mail.lock(rt).inet6.put(synced, note)?;
        self.came.notify_all();
        Ok(())
    }

    /// Says that no further note comes.
    pub(crate) fn end<R: Wait>(&self, rt: &R) {
        self.mail.lock(rt).ended = true;
        self.came.notify_all();
    }

    /// Waits for the note of a sync line of IPv4. `None` where the control has ended without it.
    pub(crate) fn take_inet<R: Wait>(&self, rt: &R, synced: u32) -> Option<TiedNote<32, A>>
        ensures { IfSome result (λ version. version_before targets_max A.plan synced ≤ version) }
    {
        let mut mail = self.came.wait_while(rt, self.mail.lock(rt), |m| {
            !m.ended && !m.inet.has(synced)
        });
        mail.inet.take(synced)
    }

    /// Waits for the note of a sync line of IPv6. `None` where the control has ended without it.
    pub(crate) fn take_inet6<R: Wait>(&self, rt: &R, synced: u32) -> Option<TiedNote<128, B>>
        ensures { IfSome result (λ version. version_before targets_max B.plan synced ≤ version) }
    {
        let mut mail = self.came.wait_while(rt, self.mail.lock(rt), |m| {
            !m.ended && !m.inet6.has(synced)
        });
        mail.inet6.take(synced)
    }
}
