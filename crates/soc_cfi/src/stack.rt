//! The stack of a postfix expression.
ghost use Rattle.std.specs.Prelude.{◌≡◌, ◌<◌, [], ◌∷◌, length, MatchOption, OnSome};
ghost use Rattle.soc_cfi.specs.Postfix.{pushed, only_value, stack_size};

use std::marker::Model;

/// How many values a stack holds at most.
const STACK_SIZE: usize = 64;

/// A stack, seen as the list of its values, the topmost first. It grows downwards.
#[derive(Drop)]
pub struct Stack {
    values: [u64; STACK_SIZE],
    /// The place of the topmost value; the size where there is none.
    top: usize,
}

impl Model for Stack {
    ghost use Rattle.std.specs.Prelude.{ℕ, ◌≤◌, List, drop};
    ghost use Rattle.soc_cfi.specs.declared.stack.TheConstants.{STACK_SIZE};

    ghost Value = { List ℕ };

    ghost view = { λ stack. drop stack.top stack.values };

    ghost invariant = { λ stack. stack.top ≤ STACK_SIZE };
}

impl Stack {
    pub fn new() -> Self
        ensures { result ≡ [] }
    {
        Stack {
            values: [0; STACK_SIZE],
            top: STACK_SIZE,
        }
    }

    /// Puts a value on top; `None` where the stack is full.
    pub fn push(&mut self, value: u64) -> Option<()>
        ensures { MatchOption result (pushed value self.old ≡ None)
            (λ _. pushed value self.old ≡ Some self.new) }
    {
        if self.top == 0 {
            return None;
        }
        self.top -= 1;
        self.values[self.top] = value;
        Some(())
    }

    /// Takes the topmost value away; `None` where there is none.
    pub fn pop(&mut self) -> Option<u64>
        ensures cases { MatchOption result ((self.old ≡ []) × (self.new ≡ []))
            (λ value. self.old ≡ value ∷ self.new) }
        ensures room { OnSome result (length self.new < stack_size) }
    {
        if self.top == STACK_SIZE {
            return None;
        }
        let value = self.values[self.top];
        self.top += 1;
        Some(value)
    }

    /// The value of a stack that holds one alone.
    pub fn only_value(&self) -> Option<u64>
        ensures { result ≡ only_value self.now }
    {
        if self.top + 1 == STACK_SIZE {
            Some(self.values[self.top])
        } else {
            None
        }
    }
}
