//! Parts of a text.

ghost use Rattle.std.specs.Prelude.{◌≡◌, ◌+◌, ◌≤◌, length};
ghost use Rattle.cdc_types.specs.declared.bounds.TheConstants.Limits.{SCRIPT_BYTES};

/// Some bytes of a script or a step file: a line, a word, or the rest of a text.
#[derive(Clone, Copy)]
pub struct Part<'a> {
    /// The offset of the first byte in the text, from 0.
    pub start: usize,
    pub bytes: &'a [u8],
    ghost within: { start + length bytes.now ≤ SCRIPT_BYTES },
}

/// The whole text as a part. It isn't longer than `Limits::SCRIPT_BYTES`.
pub fn whole(text: &[u8]) -> Part<'_>
    requires { length text.now ≤ SCRIPT_BYTES }
    ensures start { result.start ≡ 0 }
    ensures bytes { result.bytes.now ≡ text.now }
{
    Part {
        start: 0,
        bytes: text,
    }
}
