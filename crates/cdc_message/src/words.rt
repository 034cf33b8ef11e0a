//! Texts compared by eight bytes at a time.

ghost use Rattle.std.specs.Prelude.{◌≡◌, ◌≤◌, ◌-◌, ◌↔◌, IsTrue, drop, length, take};
ghost use Rattle.std.specs.Int.{to_le_bytes, w64};

/// Whether two texts of one length are the same. Inlined for texts whose length is a constant.
#[inline(always)]
pub(crate) fn same(one: &[u8], other: &[u8]) -> bool
    requires { length one.now ≡ length other.now }
    ensures { IsTrue result ↔ (one.now ≡ other.now) }
{
    let length = one.len();
    if length < 8 {
        return one == other;
    }
    if first_word(one) != first_word(other) || last_word(one) != last_word(other) {
        return false;
    }
    length <= 16 || one[8..length - 8] == other[8..length - 8]
}

/// The first eight bytes of a text, as a number.
#[inline(always)]
fn first_word(text: &[u8]) -> u64
    requires { 8 ≤ length text.now }
    ensures { to_le_bytes w64 result ≡ take 8 text.now }
{
    match text.first_chunk::<8>() {
        Some(bytes) => u64::from_le_bytes(*bytes),
        None => 0,
    }
}

/// The last eight bytes of a text, as a number.
#[inline(always)]
fn last_word(text: &[u8]) -> u64
    requires { 8 ≤ length text.now }
    ensures { to_le_bytes w64 result ≡ drop (length text.now - 8) text.now }
{
    first_word(&text[text.len() - 8..])
}
