//! The numbers of one part of a body, by the names of its members.

ghost use Rattle.std.specs.Prelude.{◌≡◌, ◌<◌, ◌^◌, Some, None, IfSome};
ghost use Rattle.cdc_message.specs.declared.fields.FieldName.{FieldName};
ghost use Rattle.cdc_message.specs.Unordered as spec;

use crate::fields::FieldName;

// How many names a field can have.
const NAMES: usize = 19;

// Each number at the place of its member's name.
#[derive(Drop)]
pub(crate) struct Numbers {
    values: [Option<u128>; NAMES],
}

// The place of a name's number.
fn place_of(name: FieldName) -> usize
    ensures { result ≡ spec.place_of name }
{
    match name {
        FieldName::Timestamp => 0,
        FieldName::Kind => 1,
        FieldName::Ledger => 2,
        FieldName::TransferPart => 3,
        FieldName::DebitAccount => 4,
        FieldName::CreditAccount => 5,
        FieldName::Id => 6,
        FieldName::Amount => 7,
        FieldName::PendingId => 8,
        FieldName::UserData128 => 9,
        FieldName::UserData64 => 10,
        FieldName::UserData32 => 11,
        FieldName::Timeout => 12,
        FieldName::Code => 13,
        FieldName::Flags => 14,
        FieldName::DebitsPending => 15,
        FieldName::DebitsPosted => 16,
        FieldName::CreditsPending => 17,
        FieldName::CreditsPosted => 18,
    }
}

impl Numbers {
    // No numbers.
    pub(crate) fn none() -> Numbers
        ensures { (name : FieldName) → spec.number_of result name ≡ None }
    {
        Numbers {
            values: [None; NAMES],
        }
    }

    // Sets the number of this name.
    pub(crate) fn set(&mut self, name: FieldName, number: u128)
        ensures same { spec.number_of self.new name ≡ Some number }
        ensures others { spec.SameOthers self.old self.new name }
    {
        self.values[place_of(name)] = Some(number);
    }

    // The number of this name.
    fn number(&self, name: FieldName) -> Option<u128>
        ensures { result ≡ spec.number_of self.now name }
    {
        self.values[place_of(name)]
    }

    // The number of this name, which has at most 128 bits.
    pub(crate) fn number_128(&self, name: FieldName) -> Option<u128>
        ensures fits { IfSome result (λ n. n < 2 ^ 128) }
        ensures is { IfSome result (λ n. spec.number_of self.now name ≡ Some n) }
    {
        let number = self.number(name)?;
        Some(number)
    }

    // The number of this name, if it has at most 64 bits.
    pub(crate) fn number_64(&self, name: FieldName) -> Option<u64>
        ensures fits { IfSome result (λ n. n < 2 ^ 64) }
        ensures is { IfSome result (λ n. spec.number_of self.now name ≡ Some n) }
    {
        u64::try_from(self.number(name)?).ok()
    }

    // The number of this name, if it has at most 32 bits.
    pub(crate) fn number_32(&self, name: FieldName) -> Option<u32>
        ensures fits { IfSome result (λ n. n < 2 ^ 32) }
        ensures is { IfSome result (λ n. spec.number_of self.now name ≡ Some n) }
    {
        u32::try_from(self.number(name)?).ok()
    }

    // The number of this name, if it has at most 16 bits.
    pub(crate) fn number_16(&self, name: FieldName) -> Option<u16>
        ensures fits { IfSome result (λ n. n < 2 ^ 16) }
        ensures is { IfSome result (λ n. spec.number_of self.now name ≡ Some n) }
    {
        u16::try_from(self.number(name)?).ok()
    }
}
