//! What lies in a box.

ghost use Rattle.std.specs.Prelude.{◌≡◌, IfOk};

use std::alloc::{AllocError, Global};
use std::marker::Model;

/// What is long in a row that is seldom told, so that all rows are small. A contract sees what is in the box.
#[derive(Drop)]
pub struct Boxed<T> {
    inside: Box<T>,
}

impl<T> Model for Boxed<T> {
    ghost Value = { T };

    ghost view = { λ b. b.inside.value };
}

impl<T: Drop> Boxed<T> {
    /// A box with this in it. The only error is want of memory.
    pub fn of(alloc: Global, inside: T) -> Result<Boxed<T>, AllocError>
        ensures { IfOk result (λ boxed. boxed ≡ inside) }
    {
        match Box::new(alloc, inside) {
            Ok(inside) => Ok(Boxed { inside }),
            Err(refused) => {
                drop(refused);
                Err(AllocError)
            }
        }
    }

    /// What is in the box.
    pub fn get(&self) -> &T
        ensures { result.now ≡ self.now }
    {
        &self.inside
    }
}
