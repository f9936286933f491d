//! The static library: the calls that C and Rust make. Each hands on to a call of a crate below and
//! states that call's clauses. A reply of 0 is acceptance, any other number a refusal
//! (docs/RULES.md, Replies). Every input has its reply; a refused call leaves every lent byte as it
//! was, and a struct that is handed back is then all zeros.
#![tactic(auto)]

ghost use Rattle.std.specs.Prelude.{◌≡◌, ◌≤◌, length, IfOk, IfErr};
ghost use Rattle.formats.specs.Table.{bytes_of};
ghost use Rattle.planar_yuv.specs.Answers.{from_pitch, from_width, layout_of, PlanesApart};
ghost use Rattle.stretch_rect.specs.Sets as sets;
ghost use Rattle.stretch_rect.specs.Sets.{RoundedFrom};
ghost use Rattle.stretch_rect.specs.Yuv.{rgb_of, rgb_list, colour_in, NearDecimals};
ghost use Rattle.regions.specs.Replies.{can_convert, can_convert_update, reply_with, convert_reply, reply_number};
ghost use Rattle.regions.specs.Regions.{converted_with, converted_bytes, NearWith, NearSource, OwnWith, OthersKept};
ghost use Rattle.convert.specs.Half.{half_of, HalfOf};
ghost use Rattle.convert.specs.Color.{rgba_of};
ghost use Rattle.convert.specs.Fill.{fill_of, pixel_of};
ghost use Rattle.convert.specs.Splat.{Splat};
ghost use Rattle.depth_texture.specs.Pixels.{KeepsAll};
ghost use Rattle.depth_texture.specs.Layouts.{layout_refusal, layout_for, Stands, Pitches};
ghost use Rattle.depth_texture.specs.Replies.{refusal_of};
ghost use Rattle.depth_texture.specs.Planes.{unpacked_depth, unpacked_stencil, packed_buffer};
ghost use Rattle.depth_texture.specs.Promises.{Restores, PlanesKept, SameElsewhere, NearestCodes};

use convert::FillPixel;
use depth_texture::PlaneLayout;
use planar_yuv::PlanarYuvLayout;
use regions::ConvertRegion;
use stretch_rect::YuvSet;

// ---- replies

// The number of a reply: 0 for acceptance, else the refusal's.
fn number_of<E: Into<u32>>(reply: Result<(), E>) -> u32
    ensures accepted { IfOk reply (λ _. result ≡ 0) }
    ensures refused { IfErr reply (λ e. E.converts e result) }
{
    match reply {
        Ok(()) => 0,
        Err(refusal) => refusal.into(),
    }
}

// The number of an answer, whose value goes to `out`: `nothing` where it is refused.
fn hand_back<T: Copy, E: Into<u32>>(answer: Result<T, E>, nothing: T, out: &mut T) -> u32
    ensures answered { IfOk answer (λ v. (out.new ≡ v) × (result ≡ 0)) }
    ensures refused { IfErr answer (λ e. (out.new ≡ nothing) × E.converts e result) }
{
    match answer {
        Ok(value) => {
            *out = value;
            0
        }
        Err(refusal) => {
            *out = nothing;
            refusal.into()
        }
    }
}

// ---- conversion

/// Whether a conversion takes this pair of format codes. Never refuses.
#[unsafe(no_mangle)]
pub extern "C" fn wentuqis_can_convert(src_format: u32, dst_format: u32) -> bool
    ensures { result ≡ can_convert src_format dst_format }
{
    regions::can_convert(src_format, dst_format)
}

/// Whether UpdateSurface and UpdateTexture take this pair of format codes. Never refuses.
#[unsafe(no_mangle)]
pub extern "C" fn wentuqis_can_convert_update(src_format: u32, dst_format: u32) -> bool
    ensures { result ≡ can_convert_update src_format dst_format }
{
    regions::can_convert_update(src_format, dst_format)
}

/// Converts a region of `src` into `dst`, YUV by `bt601`. Starts and pitches are in bytes, columns
/// and rows in texels; a row pitch below 0 is that of a picture stored bottom row first. Refusals 1
/// to 4.
#[unsafe(no_mangle)]
pub extern "C" fn wentuqis_convert_region(
    dst: &mut [u8],
    dst_format: u32,
    src: &[u8],
    src_format: u32,
    region: &ConvertRegion,
) -> u32
    ensures reply { result
        ≡ reply_number (convert_reply src.now dst.old src_format dst_format region.now) }
    ensures bytes { dst.new ≡ converted_bytes src.now dst.old src_format dst_format region.now }
    ensures near { NearSource src.now dst.old dst.new src_format dst_format region.now }
    ensures own { OwnWith sets.bt601 src.now dst.old dst.new src_format dst_format region.now }
    ensures kept { OthersKept dst.old dst.new dst_format region.now }
{
    let reply = pixel_convert::convert_region(dst, dst_format, src, src_format, region);
    number_of(reply)
}

/// Converts a region of `src` into `dst`, YUV by a set of numbers. Refusals 1, 2, 15, 3 and 4, in
/// this order.
#[unsafe(no_mangle)]
pub extern "C" fn wentuqis_convert_region_with_set(
    dst: &mut [u8],
    dst_format: u32,
    src: &[u8],
    src_format: u32,
    region: &ConvertRegion,
    set: &YuvSet,
) -> u32
    ensures reply { result
        ≡ reply_number (reply_with set.now src.now dst.old src_format dst_format region.now) }
    ensures bytes { dst.new
        ≡ converted_with set.now src.now dst.old src_format dst_format region.now }
    ensures near { NearWith set.now src.now dst.old dst.new src_format dst_format region.now }
    ensures own { OwnWith set.now src.now dst.old dst.new src_format dst_format region.now }
    ensures kept { OthersKept dst.old dst.new dst_format region.now }
{
    let reply = pixel_convert::convert_region_with_set(
        dst, dst_format, src, src_format, region, set,
    );
    number_of(reply)
}

// ---- YUV

/// The numbers by which the original converts YUV, into `set`. Never refuses.
#[unsafe(no_mangle)]
pub extern "C" fn wentuqis_bt601(set: &mut YuvSet)
    ensures is { set.new ≡ sets.bt601 }
    ensures nearest { RoundedFrom 1164 16065 1596 392 813 2017 set.new }
{
    *set = stretch_rect::bt601();
}

/// The numbers of ITU-R BT.709 for luma from 16 to 235 and chroma around 128, into `set`. Never
/// refuses.
#[unsafe(no_mangle)]
pub extern "C" fn wentuqis_bt709(set: &mut YuvSet)
    ensures is { set.new ≡ sets.bt709 }
    ensures nearest { RoundedFrom 1164 16000 1793 213 533 2112 set.new }
{
    *set = stretch_rect::bt709();
}

/// Red, green and blue of luma, U (`cb`) and V (`cr`) by `bt601`. Never refuses.
#[unsafe(no_mangle)]
pub extern "C" fn wentuqis_yuv_to_rgb8(luma: u8, cb: u8, cr: u8, rgb: &mut [u8; 3])
    ensures is { rgb.new ≡ rgb_list (rgb_of sets.bt601 luma cb cr) }
    ensures near { NearDecimals luma cb cr (colour_in rgb.new) }
{
    let p = stretch_rect::yuv_to_rgb8(luma, cb, cr);
    *rgb = [p.r, p.g, p.b];
}

/// The same colour as `wentuqis_yuv_to_rgb8`, by five tables. Never refuses.
#[unsafe(no_mangle)]
pub extern "C" fn wentuqis_yuv_to_rgb8_by_tables(luma: u8, cb: u8, cr: u8, rgb: &mut [u8; 3])
    ensures is { rgb.new ≡ rgb_list (rgb_of sets.bt601 luma cb cr) }
    ensures near { NearDecimals luma cb cr (colour_in rgb.new) }
{
    let q = stretch_rect::yuv_to_rgb8_by_tables(luma, cb, cr);
    *rgb = [q.r, q.g, q.b];
}

// ---- planar layouts

// What is handed back where there is no planar layout.
const NO_PLANAR_LAYOUT: PlanarYuvLayout = PlanarYuvLayout {
    pitch: 0,
    luma_rows: 0,
    chroma_rows: 0,
    total_bytes: 0,
};

/// The layout in bytes of a planar frame of `width` x `height` texels. Refusal 14.
#[unsafe(no_mangle)]
pub extern "C" fn wentuqis_planar_yuv_layout(
    format: u32,
    width: u32,
    height: u32,
    layout: &mut PlanarYuvLayout,
) -> u32
    ensures reply { result ≡ (from_width format width height).number }
    ensures layout { layout.new ≡ layout_of (from_width format width height) }
    ensures planes { result ≡ 0 → PlanesApart format layout.new }
    ensures rows { result ≡ 0 → width ≤ layout.new.pitch }
{
    let answer = planar_yuv::planar_yuv_layout(format, width, height);
    hand_back(answer, NO_PLANAR_LAYOUT, layout)
}

/// The layout in bytes of a planar frame that is known by its pitch, in bytes, and its luma rows.
/// Refusal 14.
#[unsafe(no_mangle)]
pub extern "C" fn wentuqis_planar_yuv_layout_from_pitch(
    format: u32,
    pitch: usize,
    luma_rows: usize,
    layout: &mut PlanarYuvLayout,
) -> u32
    ensures reply { result ≡ (from_pitch format pitch luma_rows).number }
    ensures layout { layout.new ≡ layout_of (from_pitch format pitch luma_rows) }
    ensures planes { result ≡ 0 → PlanesApart format layout.new }
{
    let answer = planar_yuv::planar_yuv_layout_from_pitch(format, pitch, luma_rows);
    hand_back(answer, NO_PLANAR_LAYOUT, layout)
}

// ---- fills

// What is handed back where a format has no fill.
const NO_PIXEL: FillPixel = FillPixel {
    bytes: [0; 16],
    length: 0,
};

/// The texel of a D3DCOLOR in a format, for a fill: its bytes, zeros up to sixteen, and how many of
/// them count. Refusal 5.
#[unsafe(no_mangle)]
pub extern "C" fn wentuqis_d3dcolor_fill_pixel_bytes(
    color: u32,
    format: u32,
    fill: &mut FillPixel,
) -> u32
    ensures reply { result ≡ (fill_of color format).reply }
    ensures fill { fill.new ≡ pixel_of (fill_of color format) }
{
    let answer = convert::d3dcolor_fill_pixel_bytes(color, format);
    hand_back(answer, NO_PIXEL, fill)
}

/// Byte i becomes byte i mod n of a pattern of n bytes; an empty pattern leaves every byte. Never
/// refuses.
#[unsafe(no_mangle)]
pub extern "C" fn wentuqis_splat_pixel_pattern(dst: &mut [u8], pixel: &[u8])
    ensures bytes { Splat pixel.now dst.old dst.new }
{
    convert::splat_pixel_pattern(dst, pixel);
}

/// The binary16 pattern of a binary32 pattern. Never refuses.
#[unsafe(no_mangle)]
pub extern "C" fn wentuqis_f32_to_f16_bits(bits: u32) -> u16
    ensures is { result ≡ half_of bits }
    ensures nearest { HalfOf bits result }
{
    convert::f32_to_f16_bits(bits)
}

/// Red, green, blue and alpha of a D3DCOLOR, each its byte over 255. Never refuses.
#[unsafe(no_mangle)]
pub extern "C" fn wentuqis_d3dcolor_to_rgba_f32(color: u32, rgba: &mut [f32; 4])
    ensures is { rgba.new ≡ rgba_of color }
{
    *rgba = convert::d3dcolor_to_rgba_f32(color);
}

// ---- depth

// What is handed back where there is no plane layout.
const NO_PLANES: PlaneLayout = PlaneLayout {
    width: 0,
    height: 0,
    depth_pitch: 0,
    stencil_pitch: 0,
};

/// The layout in bytes of a depth plane and a stencil plane of `width` x `height` pixels, whose
/// pitches are multiples of `alignment` bytes, raised to at least 4. Refusals 6 to 8.
#[unsafe(no_mangle)]
pub extern "C" fn wentuqis_plane_layout(
    width: u32,
    height: u32,
    alignment: u32,
    layout: &mut PlaneLayout,
) -> u32
    ensures reply { result ≡ layout_refusal width height alignment }
    ensures layout { layout.new ≡ layout_for width height alignment }
    ensures stands { result ≡ 0 → Stands layout.new }
    ensures pitches { result ≡ 0 → Pitches width alignment layout.new }
{
    let answer = PlaneLayout::new(width, height, alignment);
    hand_back(answer, NO_PLANES, layout)
}

/// Unpacks a picture of packed depth pixels, whose rows lie `packed_pitch` bytes apart, into a
/// plane of binary32 depths and one of stencil bytes. Refusals 9 to 13.
#[unsafe(no_mangle)]
pub extern "C" fn wentuqis_unpack(
    depth: &mut [u8],
    stencil: &mut [u8],
    packed: &[u8],
    packed_pitch: usize,
    format: u32,
    layout: &PlaneLayout,
) -> u32
    ensures reply { result
        ≡ refusal_of format layout.now (length packed.now) packed_pitch (length depth.old)
        (length stencil.old) }
    ensures depth { depth.new
        ≡ unpacked_depth format layout.now packed.now packed_pitch depth.old stencil.old }
    ensures stencil { stencil.new
        ≡ unpacked_stencil format layout.now packed.now packed_pitch depth.old stencil.old }
    ensures restores { result ≡ 0 → KeepsAll format
        → Restores format layout.now packed.now packed_pitch depth.new stencil.new }
    ensures kept { PlanesKept format layout.now depth.old depth.new stencil.old stencil.new }
{
    let reply = depth_texture::unpack(depth, stencil, packed, packed_pitch, format, *layout);
    number_of(reply)
}

/// Packs a plane of binary32 depths and one of stencil bytes into a picture of packed depth pixels,
/// whose rows lie `packed_pitch` bytes apart. Refusals 9 to 13.
#[unsafe(no_mangle)]
pub extern "C" fn wentuqis_pack(
    packed: &mut [u8],
    packed_pitch: usize,
    depth: &[u8],
    stencil: &[u8],
    format: u32,
    layout: &PlaneLayout,
) -> u32
    ensures reply { result
        ≡ refusal_of format layout.now (length packed.old) packed_pitch (length depth.now)
        (length stencil.now) }
    ensures bytes { packed.new
        ≡ packed_buffer format layout.now depth.now stencil.now packed.old packed_pitch }
    ensures nearest { result ≡ 0
        → NearestCodes format layout.now depth.now packed.new packed_pitch }
    ensures kept { SameElsewhere packed_pitch (bytes_of format) layout.now.width layout.now.height
        packed.old packed.new }
{
    let reply = depth_texture::pack(packed, packed_pitch, depth, stencil, format, *layout);
    number_of(reply)
}
