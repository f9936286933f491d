//! Blocks of A8R8G8B8 words, by which texels go from one format into another: they are read into a
//! block from their source's bytes, and written from it in their destination's format. Each arm of
//! a `match` hands its format and its size on as literals, and the compiler makes a loop of it.
//! specs/Blocks has what it is to read and to write a block.
//! Ported from pixel_convert.rs of athei/mtld3d (an altered version, see NOTICE).
#![tactic(auto)]

ghost use Rattle.std.specs.Prelude.{◌≡◌, ℕ, ◌+◌, ◌*◌, ◌≤◌, ◌<◌, ◌^◌, length};
ghost use Rattle.formats.specs.Codes.{R8G8B8};
ghost use Rattle.formats.specs.Table.{bytes_of};
ghost use Rattle.formats.specs.Formats.{rgb_code, code_source_code, lane_source_code};
ghost use Rattle.texels.specs.Blocks.{TexelsIn, BlockRead, WordsWritten, AnswersWritten, Rewritten, word_of};

use crate::encode;
use formats::LaneSource::{Codes, Floats, Rgb};
use formats::{CodeSource, LaneSource, RgbFormat};

/// The byte at which a texel starts, in what is read and in what is written.
#[derive(Clone, Copy)]
pub struct Offsets {
    /// In what is read.
    pub from: usize,
    /// In what is written.
    pub to: usize,
}

// ---- reading: a texel for each word of `block`, from byte `from` on

// Texels that lie `step` bytes apart; returns where the next one starts, as each of these does.
fn read_block(block: &mut [u32], src: &[u8], format: LaneSource, step: usize, from: usize) -> usize
    requires { (step ≤ bytes_of (lane_source_code format))
        × TexelsIn (length src.now) from step (bytes_of (lane_source_code format))
        (length block.old) }
    ensures { BlockRead src.now (lane_source_code format) step from (length block.old) block.new
        result }
{
    let mut off = from;
    for word in block {
        *word = encode::read_word(format, &src[off..]);
        off += step;
    }
    off
}

// R8G8B8. All but the last texel are read as X8R8G8B8, with the byte after their three.
#[tactic(auto, unfolding(formats::specs::Table::bytes_of, formats::specs::Table::parts_of))]
fn read_r8g8b8(block: &mut [u32], src: &[u8], from: usize) -> usize
    requires { from + length block.old * 3 ≤ length src.now }
    ensures { BlockRead src.now R8G8B8 3 from (length block.old) block.new result }
{
    let Some((last, others)) = block.split_last_mut() else {
        return from;
    };
    let off = read_block(others, src, Rgb(RgbFormat::X8R8G8B8), 3, from);
    *last = encode::read_word(Rgb(RgbFormat::R8G8B8), &src[off..]);
    off + 3
}

// An RGB format.
#[tactic(auto, using(crate::proofs::BlockLaws::each_in), unfolding(formats::specs::Table::bytes_of, formats::specs::Table::parts_of))]
fn read_rgb(block: &mut [u32], src: &[u8], format: RgbFormat, from: usize) -> usize
    requires { from + length block.old * bytes_of (rgb_code format) ≤ length src.now }
    ensures { BlockRead src.now (rgb_code format) (bytes_of (rgb_code format)) from
        (length block.old) block.new result }
{
    match format {
        RgbFormat::R8G8B8 => read_r8g8b8(block, src, from),
        RgbFormat::A8R8G8B8 => read_block(block, src, Rgb(RgbFormat::A8R8G8B8), 4, from),
        RgbFormat::X8R8G8B8 => read_block(block, src, Rgb(RgbFormat::X8R8G8B8), 4, from),
        RgbFormat::R5G6B5 => read_block(block, src, Rgb(RgbFormat::R5G6B5), 2, from),
        RgbFormat::X1R5G5B5 => read_block(block, src, Rgb(RgbFormat::X1R5G5B5), 2, from),
        RgbFormat::A1R5G5B5 => read_block(block, src, Rgb(RgbFormat::A1R5G5B5), 2, from),
        RgbFormat::A4R4G4B4 => read_block(block, src, Rgb(RgbFormat::A4R4G4B4), 2, from),
        RgbFormat::A8 => read_block(block, src, Rgb(RgbFormat::A8), 1, from),
        RgbFormat::A8B8G8R8 => read_block(block, src, Rgb(RgbFormat::A8B8G8R8), 4, from),
        RgbFormat::X8B8G8R8 => read_block(block, src, Rgb(RgbFormat::X8B8G8R8), 4, from),
        RgbFormat::L8 => read_block(block, src, Rgb(RgbFormat::L8), 1, from),
        RgbFormat::A8L8 => read_block(block, src, Rgb(RgbFormat::A8L8), 2, from),
    }
}

// A source of whole numbers.
#[tactic(auto, using(crate::proofs::BlockLaws::each_in), unfolding(formats::specs::Table::bytes_of, formats::specs::Table::parts_of))]
fn read_codes(block: &mut [u32], src: &[u8], format: CodeSource, from: usize) -> usize
    requires { from + length block.old * bytes_of (code_source_code format) ≤ length src.now }
    ensures { BlockRead src.now (code_source_code format) (bytes_of (code_source_code format)) from
        (length block.old) block.new result }
{
    match format {
        CodeSource::A16B16G16R16 => read_block(
            block,
            src,
            Codes(CodeSource::A16B16G16R16),
            8,
            from,
        ),
        CodeSource::A2R10G10B10 => read_block(block, src, Codes(CodeSource::A2R10G10B10), 4, from),
        CodeSource::A2B10G10R10 => read_block(block, src, Codes(CodeSource::A2B10G10R10), 4, from),
        CodeSource::G16R16 => read_block(block, src, Codes(CodeSource::G16R16), 4, from),
        CodeSource::L16 => read_block(block, src, Codes(CodeSource::L16), 2, from),
        CodeSource::V8U8 => read_block(block, src, Codes(CodeSource::V8U8), 2, from),
        CodeSource::Q8W8V8U8 => read_block(block, src, Codes(CodeSource::Q8W8V8U8), 4, from),
    }
}

/// Reads as many texels as `block` has words, from byte `from` on, as A8R8G8B8 words; returns where
/// the next one starts.
#[tactic(auto, using(crate::proofs::BlockLaws::each_in), unfolding(formats::specs::Table::bytes_of, formats::specs::Table::parts_of))]
pub fn read_texels(block: &mut [u32], src: &[u8], format: LaneSource, from: usize) -> usize
    requires { from + length block.old * bytes_of (lane_source_code format) ≤ length src.now }
    ensures { BlockRead src.now (lane_source_code format) (bytes_of (lane_source_code format)) from
        (length block.old) block.new result }
{
    match format {
        Rgb(rgb) => read_rgb(block, src, rgb, from),
        Codes(codes) => read_codes(block, src, codes, from),
        Floats => read_block(block, src, Floats, 16, from),
    }
}

// ---- writing

// Writes n texels of `size` bytes. `word` gives the word of the texel that is read at an offset:
// texel k is read at `first.from + k * step` and written at `first.to + k * size`.
fn write_block<W: Fn(usize) -> u32>(
    word: W,
    step: usize,
    n: usize,
    dst: &mut [u8],
    format: RgbFormat,
    size: usize,
    first: Offsets,
) -> Offsets
    requires words { (k : ℕ) → k < n → W.pre word (first.from + k * step) }
    requires reach { first.from + n * step < 2 ^ 64 }
    requires sized { size ≡ bytes_of (rgb_code format) }
    requires room { first.to + n * bytes_of (rgb_code format) ≤ length dst.old }
    ensures { AnswersWritten (W.post word) step (rgb_code format) first n dst.old dst.new result }
{
    let mut from = first.from;
    let mut to = first.to;
    for _k in 0..n {
        encode::write_word(format, word(from), &mut dst[to..]);
        from += step;
        to += size;
    }
    Offsets { from, to }
}

// The same with the size of the format.
#[tactic(auto, unfolding(formats::specs::Table::bytes_of, formats::specs::Table::parts_of))]
fn write_words<W: Fn(usize) -> u32>(
    word: W,
    step: usize,
    n: usize,
    dst: &mut [u8],
    format: RgbFormat,
    first: Offsets,
) -> Offsets
    requires words { (k : ℕ) → k < n → W.pre word (first.from + k * step) }
    requires reach { first.from + n * step < 2 ^ 64 }
    requires room { first.to + n * bytes_of (rgb_code format) ≤ length dst.old }
    ensures { AnswersWritten (W.post word) step (rgb_code format) first n dst.old dst.new result }
{
    match format {
        RgbFormat::R8G8B8 => write_block(word, step, n, dst, RgbFormat::R8G8B8, 3, first),
        RgbFormat::A8R8G8B8 => write_block(word, step, n, dst, RgbFormat::A8R8G8B8, 4, first),
        RgbFormat::X8R8G8B8 => write_block(word, step, n, dst, RgbFormat::X8R8G8B8, 4, first),
        RgbFormat::R5G6B5 => write_block(word, step, n, dst, RgbFormat::R5G6B5, 2, first),
        RgbFormat::X1R5G5B5 => write_block(word, step, n, dst, RgbFormat::X1R5G5B5, 2, first),
        RgbFormat::A1R5G5B5 => write_block(word, step, n, dst, RgbFormat::A1R5G5B5, 2, first),
        RgbFormat::A4R4G4B4 => write_block(word, step, n, dst, RgbFormat::A4R4G4B4, 2, first),
        RgbFormat::A8 => write_block(word, step, n, dst, RgbFormat::A8, 1, first),
        RgbFormat::A8B8G8R8 => write_block(word, step, n, dst, RgbFormat::A8B8G8R8, 4, first),
        RgbFormat::X8B8G8R8 => write_block(word, step, n, dst, RgbFormat::X8B8G8R8, 4, first),
        RgbFormat::L8 => write_block(word, step, n, dst, RgbFormat::L8, 1, first),
        RgbFormat::A8L8 => write_block(word, step, n, dst, RgbFormat::A8L8, 2, first),
    }
}

/// Writes the texels of a block's words from byte `to` on; returns where the next one starts.
pub fn write_texels(block: &[u32], dst: &mut [u8], format: RgbFormat, to: usize) -> usize
    requires { to + length block.now * bytes_of (rgb_code format) ≤ length dst.old }
    ensures { WordsWritten (word_of block.now) (rgb_code format) to (length block.now) dst.old
        dst.new result }
{
    let first = Offsets { from: 0, to };
    write_words(|k| block[k], 1, block.len(), dst, format, first).to
}

/// Writes n A8R8G8B8 texels of the source, which are words where they lie, from the offsets of the
/// first ones on; returns those of the next.
pub fn rewrite_texels(
    n: usize,
    src: &[u8],
    dst: &mut [u8],
    format: RgbFormat,
    first: Offsets,
) -> Offsets
    requires source { first.from + n * 4 ≤ length src.now }
    requires destination { first.to + n * bytes_of (rgb_code format) ≤ length dst.old }
    ensures { Rewritten src.now (rgb_code format) n first dst.old dst.new result }
{
    write_words(|from| words::le32(&src[from..]), 4, n, dst, format, first)
}
