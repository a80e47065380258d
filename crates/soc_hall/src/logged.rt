//! What a hall asks of the state that lies in it.
ghost use Rattle.std.specs.Prelude.{◌≡◌, ◌++◌, List, length};
ghost use mathlib.Core.List.{IsPrefix};

/// A state that keeps a log. Commands are asked of it one at a time, and each adds a piece to the log.
pub trait Logged {
    /// What is asked in a turn.
    type Command;
    /// What a turn answers.
    type Reply;
    /// What the log is a list of.
    type Change;
    /// What no turn changes.
    type Basis;

    // The log that the state keeps.
    ghost log_of: { Self → List Self.Change };

    // Its basis.
    ghost basis_of: { Self → Self.Basis };

    // What one turn does: of the whole state before it, the command, the reply and the whole state after it.
    ghost asks: { Self → Self.Command → Self.Reply → Self → Type 0 };

    // What a turn gives its seat: of the basis, the log before it, the command, the reply and the log after it.
    ghost answers: { Self.Basis → List Self.Change → Self.Command → Self.Reply → List Self.Change
        → Type 0 };

    // When a command may be asked, by the basis and a beginning of the log that its asker has seen.
    ghost may_ask: { Self.Basis → List Self.Change → Self.Command → Type 0 };

    /// Carries the command out. What was in the log stays there, and what the command changes comes behind it.
    fn turn(&mut self, command: Self::Command) -> Self::Reply
        requires { may_ask (basis_of self.old) (log_of self.old) command }
        ensures log { IsPrefix (log_of self.old) (log_of self.new) }
        ensures basis { basis_of self.new ≡ basis_of self.old }
        ensures asks { asks self.old command result self.new }
        ensures answers { answers (basis_of self.old) (log_of self.old) command result
            (log_of self.new) };

    /// The length of the log.
    fn front(&self) -> u64
        ensures { result ≡ length (log_of self.now) };

    // What may be asked stays so as the log grows.
    ghost may_still: { (b : Self.Basis) (xs ys : List Self.Change) (c : Self.Command)
        → may_ask b xs c → may_ask b (xs ++ ys) c };
}
