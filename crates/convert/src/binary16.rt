//! Binary32 patterns as binary16 patterns. specs/ has the number that a code stands for (Units),
//! and the pattern that a binary32 pattern becomes, as the nearest code and as a number that
//! computes (Half).
//! Ported from convert.rs of athei/mtld3d (an altered version, see NOTICE).
#![tactic(auto)]

ghost use Rattle.std.specs.Prelude.{◌≡◌, ◌≤◌, ◌<◌};
ghost use Rattle.std.specs.Float.{binary32};
ghost use Rattle.std.specs.Float.Ieee.{of_bits};
ghost use Rattle.convert.specs.Half.{code_of, half_of, HalfOf};

// binary32's exponent field of 2^-14, the smallest normal binary16 number.
const SMALLEST_NORMAL: u32 = 113;

// The binary16 code of a binary32 pattern from 2^-24 to below 65520. A normal number drops 13
// digits of its 24; a subnormal one drops more. A carry out of the fraction adds one to the
// exponent's field.
#[tactic(auto, using(crate::proofs::Patterns::rounded_code, crate::proofs::CodeLaws::normal_code))]
fn nearest_f16(bits: u32) -> u32
    requires { (0x33800000 ≤ bits) × (bits < 0x477ff000) }
    ensures { result ≡ code_of (of_bits binary32 bits) }
{
    let exponent = bits / 0x80_0000;
    let significand = 0x80_0000 + (bits % 0x80_0000) as u64;
    if exponent >= SMALLEST_NORMAL {
        (exponent - SMALLEST_NORMAL) * 0x400
            + channels::nearest_even_shifted(significand, 13) as u32
    } else {
        channels::nearest_even_shifted(significand, 126 - exponent) as u32
    }
}

// binary32's infinity, above which a pattern is a NaN's.
const INFINITY: u32 = 0x7f80_0000;

// 65520 in binary32: the middle between 65504, the largest binary16 number, and 65536.
const FIRST_OVERFLOW: u32 = 0x477f_f000;

// 2^-24 in binary32: the smallest subnormal binary16 number.
const SMALLEST_SUBNORMAL: u32 = 0x3380_0000;

// 2^-25 in binary32: the middle between zero and it, and a tie that goes to zero.
const TIE_WITH_ZERO: u32 = 0x3300_0000;

/// A binary32 pattern as the binary16 pattern of the nearest number, a tie to the even code. From
/// 65520 on it is an infinity, up to 2^-25 a zero, and a NaN is 7E00; the sign stays.
#[tactic(auto, using(crate::proofs::CodeLaws::half_sum, crate::proofs::CodeLaws::is_half, crate::proofs::CodeLaws::signless, crate::proofs::HalfLaws::code_small, crate::proofs::Patterns::nan_code, crate::proofs::Patterns::overflow_code, crate::proofs::Patterns::zero_code, crate::proofs::Patterns::unit_code))]
pub fn f32_to_f16_bits(bits: u32) -> u16
    ensures is { result ≡ half_of bits }
    ensures nearest { HalfOf bits result }
{
    let sign = bits / 0x8000_0000 * 0x8000;
    let magnitude = bits % 0x8000_0000;
    if magnitude >= FIRST_OVERFLOW {
        if magnitude > INFINITY {
            return (sign + 0x7e00) as u16;
        }
        return (sign + 0x7c00) as u16;
    }
    if magnitude < SMALLEST_SUBNORMAL {
        if magnitude > TIE_WITH_ZERO {
            return (sign + 1) as u16;
        }
        return sign as u16;
    }
    (sign + nearest_f16(magnitude)) as u16
}
