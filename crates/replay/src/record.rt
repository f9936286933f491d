//! A record of a public call.
ghost use Rattle.std.specs.Prelude.{◌≡◌, ◌+◌, ◌*◌, ◌≤◌, length};

use crate::call::Call;
use crate::counts::Outcome;

/// The records of a file, of `SIZE` bytes each.
pub(crate) trait Records<const SIZE: usize>: Copy {
    /// Computes the call of a record anew.
    fn outcome(self, record: &[u8; SIZE]) -> Outcome;
}

/// The bytes of a record: the call's number and 1 for a refusal (else 0), of 32 bits each, and then
/// numbers of 64 bits, which are the call's parameters first.
#[derive(Clone, Copy)]
pub(crate) struct Record<'a, const SIZE: usize> {
    /// `SIZE` bytes.
    pub bytes: &'a [u8],
    ghost whole: { length bytes.now ≡ SIZE },
    ghost headed: { 8 ≤ SIZE },
}

impl<const SIZE: usize> Record<'_, SIZE> {
    /// The call; `None` for a number that no call has.
    pub(crate) fn call(self) -> Option<Call> {
        let bytes = self.bytes;
        Call::try_from(words::le32(bytes)).ok()
    }

    /// Whether the record says that the call is refused.
    pub(crate) fn is_refused(self) -> bool {
        let bytes = self.bytes;
        words::le32(&bytes[4..]) != 0
    }

    /// A number of 64 bits.
    pub(crate) fn long(self, place: usize) -> u64
        requires { 16 + 8 * place ≤ SIZE }
    {
        let bytes = self.bytes;
        words::le64(&bytes[8 + 8 * place..])
    }

    /// A number of 64 bits that is a size.
    pub(crate) fn size(self, place: usize) -> usize
        requires { 16 + 8 * place ≤ SIZE }
    {
        self.long(place) as usize
    }

    /// The lower half of a number, which is all of a parameter of 32 bits or fewer.
    pub(crate) fn number(self, place: usize) -> u32
        requires { 16 + 8 * place ≤ SIZE }
    {
        (self.long(place) % 0x1_0000_0000) as u32
    }

    /// What comes of the record, where `agrees` says whether the call answers as it says.
    pub(crate) fn outcome<F: FnOnce(Call) -> bool>(self, agrees: F) -> Outcome
        requires { F.IsAlwaysCallable agrees }
    {
        let call = self.call();
        Outcome {
            call,
            is_refused: self.is_refused(),
            differs: !call.is_some_and(agrees),
        }
    }
}
