//! Cases of the arithmetic of one channel. A record of the files `vectors` and `wrong_vectors` has
//! 16 bytes: four words of 32 bits, the call's number, two arguments and the answer.
use crate::call::Call;
use crate::counts::Outcome;
use crate::record::Records;

/// The records of the files `vectors` and `wrong_vectors`.
#[derive(Clone, Copy)]
pub(crate) struct Vectors;

impl Records<16> for Vectors {
    fn outcome(self, record: &[u8; 16]) -> Outcome {
        let call = Call::try_from(words::le32(record)).ok();
        let a = words::le32(&record[4..]);
        let b = words::le32(&record[8..]);
        let expected = words::le32(&record[12..]);
        Outcome {
            call,
            // None of these calls refuses: the word after the call's number is an argument.
            is_refused: false,
            differs: call
                .and_then(|call| answer(call, a, b))
                .unwrap_or(NO_ANSWER)
                != expected,
        }
    }
}

// What stands for the answer where there is none: it is no byte, code or pitch.
const NO_ANSWER: u32 = u32::MAX;

// What this library computes, or `None` for a call whose records are in another file, and for a
// scale that is not recorded. A width is reduced to those that have a pitch, and zero.
fn answer(call: Call, a: u32, b: u32) -> Option<u32> {
    let [byte, green, red, _] = a.to_le_bytes();
    let word = u16::from_le_bytes([byte, green]);
    let answer = match call {
        Call::Expand4 => channels::expand::<4>(word).into(),
        Call::Expand5 => channels::expand::<5>(word).into(),
        Call::Expand6 => channels::expand::<6>(word).into(),
        Call::Expand1 => channels::expand::<1>(word).into(),
        Call::Truncate4 => channels::truncate::<4>(byte).into(),
        Call::Truncate5 => channels::truncate::<5>(byte).into(),
        Call::Truncate6 => channels::truncate::<6>(byte).into(),
        Call::Truncate1 => channels::truncate::<1>(byte).into(),
        Call::Luminance => channels::luminance(red, green, byte).into(),
        Call::NearestCode => return nearest_code(byte, b),
        Call::Unorm8ToUnorm16 => channels::unorm8_to_unorm16(byte).into(),
        Call::Unorm16ToUnorm8 => channels::unorm16_to_unorm8(word).into(),
        Call::F32ToUnorm8 => channels::f32_to_unorm8(a).into(),
        Call::LinearRowPitch => formats::linear_row_pitch(a % (formats::MAX_TEXTURE_DIM + 1)),
        Call::BytesPerTexel => return u32::try_from(formats::bytes_per_texel(a)).ok(),
        Call::NearestByte => return nearest_byte(a, b),
        _ => return None,
    };
    Some(answer)
}

// The nearest code, for the scales that are recorded.
fn nearest_code(channel: u8, max: u32) -> Option<u32> {
    match max {
        3 | 127 | 1023 | 32767 => Some(channels::unorm8_to_nearest_code(channel, max)),
        _ => None,
    }
}

// The nearest byte, by the function of its scale, for the scales that are recorded.
fn nearest_byte(code: u32, max: u32) -> Option<u32> {
    let byte = match max {
        3 => channels::expand2(code),
        1023 => channels::unorm10_to_unorm8(code),
        127 => channels::snorm8_to_unorm8(code),
        _ => return None,
    };
    Some(byte.into())
}
