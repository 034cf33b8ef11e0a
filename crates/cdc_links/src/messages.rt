//! The types of messages that go over a link.

/// A type of messages, with the rule of who may send which message when.
pub trait Message: Drop {
    ghost use Rattle.std.specs.Prelude.{ℕ, List};

    /// What a message names in contracts only, such as the history that it was made on. No value of it is ever made.
    type Name;

    /// Whether the sender with this number, which has sent these messages with their names, may send this one next.
    ghost may_follow: { ℕ → List (Self × Self.Name) → Self × Self.Name → Type 0 };
}

/// Picks the name of one message.
pub trait Naming<N> {
    ghost name: { N };
}
