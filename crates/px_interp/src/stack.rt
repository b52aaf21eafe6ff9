// The evaluation stack.
ghost use Rattle.std.specs.Prelude.{◌≡◌, ◌<◌, [], ◌∷◌, length, OnOk};

use std::alloc::{AllocError, Global};
use std::marker::Model;

/// A stack of scalars, seen as the list of them, its top first.
#[derive(Drop)]
pub struct Stack<W> {
    below: Vec<W>,
}

impl<W> Model for Stack<W> {
    ghost use Rattle.std.specs.Prelude.{List, reverse};

    ghost Value = { List W };

    ghost view = { λ s. reverse s.below.items };
}

impl<W: Drop> Stack<W> {
    /// A stack without values.
    pub fn new(alloc: Global) -> Stack<W>
        ensures { result ≡ [] }
    {
        Stack {
            below: Vec::new(alloc),
        }
    }

    /// Puts a value on top.
    pub fn push(&mut self, x: W) -> Result<(), AllocError>
        ensures { OnOk result (self.new ≡ x ∷ self.old) }
    {
        self.below.push(x)?;
        Ok(())
    }

    /// Takes the value from the top. There is one.
    pub fn pop(&mut self) -> W
        requires { 0 < length self.old }
        ensures { self.old ≡ result ∷ self.new }
    {
        match self.below.pop() {
            Some(x) => x,
            None => unreachable!(),
        }
    }
}
