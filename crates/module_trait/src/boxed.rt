//! A value behind a pointer.
ghost use Rattle.std.specs.Prelude.{◌≡◌, IfOk};

use crate::OutOfMemory;
use std::alloc::Global;
use std::marker::Model;
use std::mem;

/// A value behind a pointer, whose calls give no allocator away: what looks something up through it
/// has no memory to take.
#[derive(Drop)]
pub struct Boxed<T> {
    value: Box<T>,
}

impl<T> Model for Boxed<T> {
    ghost Value = { T };

    ghost coded = { T.code };

    ghost view = { λ b. b.value.value };
}

impl<T: Drop> Boxed<T> {
    /// The value, in memory of its own.
    pub fn new(alloc: Global, value: T) -> Result<Boxed<T>, OutOfMemory>
        ensures { IfOk result (λ boxed. boxed ≡ value) }
    {
        let value = Box::new(alloc, value)?;
        Ok(Boxed { value })
    }

    /// The value.
    pub fn get(&self) -> &T
        ensures { result.now ≡ self.now }
    {
        &self.value
    }

    /// Puts another value there, and answers with the one that was there. It takes no memory.
    pub fn replace(&mut self, value: T) -> T
        ensures value { result ≡ self.old }
        ensures replaced { self.new ≡ value }
    {
        mem::replace(&mut *self.value, value)
    }
}
