//! The A8R8G8B8 words of two texels that share their chroma, by any legal set of numbers, in 32
//! bits. Each part of a colour lies on a line: the product of its sample and its gain, less a base
//! that the set alone determines. Bases are worked out once for many texels.
//! Ported from the YUV functions of stretch_rect.rs of athei/mtld3d (an altered version, see
//! NOTICE).
#![tactic(auto)]

ghost use Rattle.std.specs.Prelude.{◌≡◌, ℕ, ◌≤◌, neg_ℤ};
ghost use Rattle.formats.specs.Codes.{A8R8G8B8};
ghost use Rattle.texels.specs.Texels.{encoded_of};
ghost use Rattle.stretch_rect.specs.Yuv.{rgb_of};
ghost use Rattle.stretch_rect.specs.Parts.{PartSize, joined};
ghost use Rattle.stretch_rect.specs.Lines.{on_line};
ghost use Rattle.regions.specs.Regions.{opaque_of};
ghost use Rattle.pixel_convert.specs.Pairs.{luma_of, lines_of, rgb_on, pair_on};

use std::marker::Model;
use stretch_rect::LegalSet;
use stretch_rect::parts::Parts;

/// A line, whose part has room in 32 bits for every sample.
#[derive(Clone, Copy)]
pub struct Line {
    /// What a step of the sample adds, in 65536ths.
    pub gain: u32,
    /// What is taken from the product, in 65536ths.
    pub base: u32,
}

impl Model for Line {
    ghost use Rattle.pixel_convert.specs.Numbers.{LineNumbers};

    ghost Value = { LineNumbers };

    ghost use Rattle.pixel_convert.specs.Sizes.{LineSized};

    ghost view = { λ l. record { gain = l.gain; base = l.base } };

    ghost invariant = { λ l. LineSized (record { gain = l.gain; base = l.base }) };

    ghost inverse = { λ n. record { gain = n.gain; base = n.base } };
}

/// The line of each part of a colour.
#[derive(Clone, Copy)]
pub struct Lines {
    /// Luma, in every channel.
    pub luma: Line,
    /// V in red.
    pub v_red: Line,
    /// U in green, which is taken away.
    pub u_green: Line,
    /// V in green, which is taken away.
    pub v_green: Line,
    /// U in blue.
    pub u_blue: Line,
}

/// The samples of two texels: a luma each, and the U and V that they share.
#[derive(Clone, Copy)]
pub struct Samples {
    /// Luma of the first texel.
    pub first: u8,
    /// Luma of the second.
    pub second: u8,
    /// U of both.
    pub u: u8,
    /// V of both.
    pub v: u8,
}

/// The A8R8G8B8 words of two texels.
#[derive(Clone, Copy)]
pub struct Pair {
    /// Word of the first texel.
    pub first: u32,
    /// Word of the second.
    pub second: u32,
}

impl Line {
    // The line of an offset, in 65536ths, and a gain. Chroma's offset is its centre, which is in
    // halves: `chroma_centre * 32768`.
    #[tactic(auto, using(stretch_rect::proofs::LinesLaws::base_small), unfolding(stretch_rect::specs::Lines::luma_base_of))]
    fn of(offset: u32, gain: u32) -> Line
        requires { (offset ≤ 8388608) × (gain ≤ 262143) }
        ensures { result ≡ luma_of offset gain }
    {
        let base = ((offset as u64 * gain as u64 + 65535) / 65536) as u32;
        Line { gain, base }
    }

    // The part of a sample.
    #[tactic(auto, using(std::proofs::lemmas::Int::ints, crate::proofs::Sampled::sampled_fits, stretch_rect::proofs::LinesLaws::line_small))]
    fn part(self, sample: u8) -> i32
        ensures is { result ≡ on_line self.gain self.base sample }
        ensures small { PartSize result }
    {
        sample as i32 * self.gain as i32 - self.base as i32
    }

    // The part of a sample that is taken away, negated.
    #[tactic(auto, using(std::proofs::lemmas::Int::ints))]
    fn taken(self, sample: u8) -> i32
        ensures is { result ≡ neg_ℤ (on_line self.gain self.base sample) }
        ensures small { PartSize result }
    {
        -self.part(sample)
    }
}

/// The lines of a legal set.
pub fn lines_of(set: LegalSet) -> Lines
    ensures is { result ≡ lines_of set.numbers }
    ensures colours { (y u v : ℕ) → rgb_on result y u v ≡ rgb_of set.numbers y u v }
{
    let numbers = set.numbers;
    let centre = numbers.chroma_centre * 32768;
    Lines {
        luma: Line::of(numbers.luma_offset, numbers.luma_gain),
        v_red: Line::of(centre, numbers.v_to_red),
        u_green: Line::of(centre, numbers.u_to_green),
        v_green: Line::of(centre, numbers.v_to_green),
        u_blue: Line::of(centre, numbers.u_to_blue),
    }
}

// The A8R8G8B8 word of the colour that five parts make.
fn word_of(parts: Parts) -> u32
    ensures { result
        ≡ encoded_of A8R8G8B8 (opaque_of (joined parts.luma parts.v_red parts.u_green parts.v_green
        parts.u_blue)) }
{
    texels::encode::encode_a8r8g8b8(regions::opaque(parts.colour()))
}

/// The words of two texels; what their chroma adds is worked out once for both.
#[tactic(auto, using(std::proofs::lemmas::Int::ints), unfolding(crate::specs::Pairs::pair_on, crate::specs::Pairs::rgb_on))]
pub fn pair_words(lines: &Lines, s: Samples) -> Pair
    ensures { result ≡ pair_on lines.now s }
{
    let v_red = lines.v_red.part(s.v);
    let u_green = lines.u_green.taken(s.u);
    let v_green = lines.v_green.taken(s.v);
    let u_blue = lines.u_blue.part(s.u);
    let first = Parts {
        luma: lines.luma.part(s.first),
        v_red,
        u_green,
        v_green,
        u_blue,
    };
    let second = Parts {
        luma: lines.luma.part(s.second),
        v_red,
        u_green,
        v_green,
        u_blue,
    };
    Pair {
        first: word_of(first),
        second: word_of(second),
    }
}
