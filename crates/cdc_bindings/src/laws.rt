//! A law of bindings. It is the postcondition of a function that does nothing.

ghost use Rattle.cdc_bindings.specs.Bindings.{SameBindingsTakeSame};

/// Does nothing. Bindings that mean the same take the same messages. So a book that is resumed under another text of
/// its binding goes on as under the text that it was saved with.
pub fn same_bindings_take_same()
    ensures { SameBindingsTakeSame }
{}
