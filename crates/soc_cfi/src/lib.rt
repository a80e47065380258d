//! CFI rules: how a caller's registers are found from a frame's, as a symbol file tells it.
#![tactic(auto)]

mod bank;
mod evaluation;
mod laws;
mod operand;
mod operator;
mod registers;
mod rules;
mod stack;
#[cfg(test)]
mod tests;
mod texts;
mod words;

pub use bank::{Bank, Memory};
pub use evaluation::{eval, eval_bank};
pub use laws::rules_are_of_tokens;
pub use registers::{Arch, Registers};
pub use rules::Rules;
