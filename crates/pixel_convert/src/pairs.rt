//! Pairs of YUV texels that share their chroma, read into a block of A8R8G8B8 words. Their samples
//! are gathered first: each word of 16 bits has two lumas, or a U and a V. specs/Gathering has what
//! it is to gather and to read.
//! Ported from pixel_convert.rs of athei/mtld3d (an altered version, see NOTICE).
#![tactic(auto)]

ghost use Rattle.std.specs.Prelude.{◌≡◌, ◌+◌, ◌*◌, ◌/◌, ◌≤◌, length};
ghost use Rattle.texels.specs.Blocks.{TexelsIn};
ghost use Rattle.pixel_convert.specs.Gathering.{two_bytes, GathersBytes, ColoursPairs, ReadsPairs};
ghost use Rattle.pixel_convert.specs.Places.{format_of, luma_at, u_at, v_at, PlacesIn, GathersLumas, GathersChromas, HasAfter, After};

use crate::lines;
use crate::lines::{Lines, Samples};

// ---- places

/// The bytes at which the samples of a pair lie, by the format of the picture: in one macropixel,
/// in three planes, or in a plane of luma and one whose words have a U and a V.
#[derive(Clone, Copy)]
pub enum PairPlaces {
    Yuy2 { macropixel: usize },
    Uyvy { macropixel: usize },
    Yv12 { luma: usize, u: usize, v: usize },
    Nv12 { luma: usize, chroma: usize },
}

impl PairPlaces {
    /// The places of the pair so many pairs further on.
    #[tactic(auto, using(crate::proofs::Variants::yuy2_room, crate::proofs::Variants::uyvy_room, crate::proofs::Variants::yv12_room, crate::proofs::Variants::nv12_room, crate::proofs::Variants::yuy2_after, crate::proofs::Variants::uyvy_after, crate::proofs::Variants::yv12_after, crate::proofs::Variants::nv12_after))]
    pub fn after(self, pairs: usize) -> PairPlaces
        requires { HasAfter self pairs }
        ensures { After self pairs result }
    {
        match self {
            PairPlaces::Yuy2 { macropixel } => PairPlaces::Yuy2 {
                macropixel: macropixel + 4 * pairs,
            },
            PairPlaces::Uyvy { macropixel } => PairPlaces::Uyvy {
                macropixel: macropixel + 4 * pairs,
            },
            PairPlaces::Yv12 { luma, u, v } => PairPlaces::Yv12 {
                luma: luma + 2 * pairs,
                u: u + pairs,
                v: v + pairs,
            },
            PairPlaces::Nv12 { luma, chroma } => {
                let bytes = 2 * pairs;
                PairPlaces::Nv12 {
                    luma: luma + bytes,
                    chroma: chroma + bytes,
                }
            }
        }
    }
}

// ---- gathering: two samples to a word of 16 bits (docs/DECISIONS.md, Shape)

// Bytes p and p + 2 of a macropixel's word.
#[tactic(auto, using(crate::proofs::Bytes::shifted), unfolding(crate::specs::Gathering::two_bytes))]
fn packed_word(m: u32, p: u32) -> u16
    requires { p ≤ 1 }
    ensures { result ≡ two_bytes m p }
{
    let [first, _, second, _] = (m >> (8 * p)).to_le_bytes();
    u16::from_le_bytes([first, second])
}

// Bytes p and p + 2 of macropixels, from byte `from` on.
fn gather_packed(out: &mut [u16], src: &[u8], from: usize, p: u32)
    requires { (p ≤ 1) × TexelsIn (length src.now) from 4 4 (length out.old) }
    ensures { GathersBytes src.now (from + p) (from + p + 2) 4 (length out.old) out.new }
{
    for (i, word) in out.iter_mut().enumerate() {
        *word = packed_word(words::le32(&src[from + 4 * i..]), p);
    }
}

// Two bytes in a row each, from byte `from` on.
fn gather_words(out: &mut [u16], src: &[u8], from: usize)
    requires { TexelsIn (length src.now) from 2 2 (length out.old) }
    ensures { GathersBytes src.now from (from + 1) 2 (length out.old) out.new }
{
    for (i, word) in out.iter_mut().enumerate() {
        *word = words::le16(&src[from + 2 * i..]);
    }
}

// A byte of the plane at `first` and one of the plane at `second` each.
#[tactic(auto, using(crate::proofs::GatheringLaws::gather_next))]
fn gather_planes(out: &mut [u16], src: &[u8], first: usize, second: usize)
    requires { TexelsIn (length src.now) first 1 1 (length out.old)
        × TexelsIn (length src.now) second 1 1 (length out.old) }
    ensures { GathersBytes src.now first second 1 (length out.old) out.new }
{
    for (i, word) in out.iter_mut().enumerate() {
        *word = u16::from_le_bytes([src[first + i], src[second + i]]);
    }
}

// The lumas of as many pairs as there are words; the first pair's samples lie at `at`.
#[tactic(auto, using(crate::proofs::Variants::yuy2_lumas, crate::proofs::Variants::uyvy_lumas, crate::proofs::Variants::yv12_lumas, crate::proofs::Variants::nv12_lumas))]
fn gather_lumas(lumas: &mut [u16], src: &[u8], at: PairPlaces)
    requires { PlacesIn (length src.now) at (length lumas.old) }
    ensures { GathersLumas src.now at (length lumas.old) lumas.new }
{
    match at {
        PairPlaces::Yuy2 { macropixel } => gather_packed(lumas, src, macropixel, 0),
        PairPlaces::Uyvy { macropixel } => gather_packed(lumas, src, macropixel, 1),
        PairPlaces::Yv12 { luma, .. } => gather_words(lumas, src, luma),
        PairPlaces::Nv12 { luma, .. } => gather_words(lumas, src, luma),
    }
}

// The U and V of as many pairs as there are words; the first pair's samples lie at `at`.
#[tactic(auto, using(crate::proofs::Variants::yuy2_chromas, crate::proofs::Variants::uyvy_chromas, crate::proofs::Variants::yv12_chromas, crate::proofs::Variants::nv12_chromas))]
fn gather_chromas(chromas: &mut [u16], src: &[u8], at: PairPlaces)
    requires { PlacesIn (length src.now) at (length chromas.old) }
    ensures { GathersChromas src.now at (length chromas.old) chromas.new }
{
    match at {
        PairPlaces::Yuy2 { macropixel } => gather_packed(chromas, src, macropixel, 1),
        PairPlaces::Uyvy { macropixel } => gather_packed(chromas, src, macropixel, 0),
        PairPlaces::Yv12 { u, v, .. } => gather_planes(chromas, src, u, v),
        PairPlaces::Nv12 { chroma, .. } => gather_words(chromas, src, chroma),
    }
}

// ---- colours

// The words of as many pairs as there are words of lumas.
#[tactic(auto, using(crate::proofs::GatheringLaws::colour_more, crate::proofs::Bytes::low, crate::proofs::Bytes::high), unfolding(crate::specs::Pairs::pair_on, crate::specs::Gathering::word_on))]
fn colour_pairs(block: &mut [u32], lumas: &[u16], chromas: &[u16], lines: Lines)
    requires { (2 * length lumas.now ≤ length block.old) × (length lumas.now ≤ length chromas.now) }
    ensures { ColoursPairs lines lumas.now chromas.now (length lumas.now) block.old block.new }
{
    for i in 0..lumas.len() {
        let [first, second] = lumas[i].to_le_bytes();
        let [u, v] = chromas[i].to_le_bytes();
        let samples = Samples {
            first,
            second,
            u,
            v,
        };
        let pair = lines::pair_words(&lines, samples);
        block[2 * i] = pair.first;
        block[2 * i + 1] = pair.second;
    }
}

/// Reads as many pairs as `block` has room for, at most 32, as A8R8G8B8 words; the first pair's
/// samples lie at `at`.
pub fn read_pairs(block: &mut [u32], src: &[u8], at: PairPlaces, lines: &Lines)
    requires { (length block.old / 2 ≤ 32) × PlacesIn (length src.now) at (length block.old / 2) }
    ensures { ReadsPairs lines.now src.now (format_of at) (luma_at at) (u_at at) (v_at at)
        (length block.old / 2) block.old block.new }
{
    let mut lumas = [0u16; 32];
    let mut chromas = [0u16; 32];
    let lumas = &mut lumas[..block.len() / 2];
    let chromas = &mut chromas[..block.len() / 2];
    gather_lumas(lumas, src, at);
    gather_chromas(chromas, src, at);
    colour_pairs(block, lumas, chromas, *lines);
}
