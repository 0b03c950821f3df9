// Boxes whose contents alone count in contracts.
ghost use Rattle.std.specs.Prelude.{◌≡◌, IfOk};

use kp_base::NoMemory;
use std::alloc::Global;
use std::marker::Model;

/// A `Box` that contracts see as its contents, so that two trees are equal if their parts are, and no statement about
/// a tree depends on its location in memory.
#[derive(Drop)]
pub struct Boxed<T> {
    inner: Box<T>,
}

impl<T> Model for Boxed<T> {
    ghost Value = { T };

    ghost coded = { T.code };

    ghost view = { λ b. b.inner.value };
}

impl<T> Boxed<T> {
    /// The contents of the box.
    pub fn get(&self) -> &T
        ensures { result.now ≡ self.now }
    {
        &self.inner
    }
}

impl<T: Drop> Boxed<T> {
    /// A box with this value. Error: out of memory; then the value has been dropped.
    pub fn new(alloc: Global, value: T) -> Result<Boxed<T>, NoMemory>
        ensures { IfOk result (λ b. b ≡ value) }
    {
        let inner = Box::new(alloc, value)?;
        Ok(Boxed { inner })
    }
}
