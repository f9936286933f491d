//! Cases of the public calls that are lent buffers. A record of the files `buffers`, `sets` and
//! `wrong_buffers` has 512 bytes: the call's number and 1 for a refusal (else 0), of 32 bits each;
//! seventeen parameters of 64 bits, the lengths of the lent buffers first; three areas of 72 bytes
//! that hold the buffers before the call, and two that hold what is written after it. An area is
//! longer than what is lent of it, and every byte of it is compared.
ghost use Rattle.std.specs.Prelude.{◌≡◌, ◌≤◌, ◌<◌, length};

use crate::call::Call;
use crate::counts::Outcome;
use crate::record::{Record, Records};
use depth_texture::PlaneLayout;
use places::Side;
use regions::ConvertRegion;
use stretch_rect::YuvSet;

/// The records of the files `buffers`, `sets` and `wrong_buffers`.
#[derive(Clone, Copy)]
pub(crate) struct Buffers;

impl Records<512> for Buffers {
    fn outcome(self, bytes: &[u8; 512]) -> Outcome {
        let record: Record<'_, 512> = Record { bytes };
        record.outcome(|call| agrees(call, record))
    }
}

// Whether the call answers as the record says; it does not if its records are in another file.
fn agrees(call: Call, record: Record<'_, 512>) -> bool {
    match call {
        Call::ConvertRegion => convert_region(record),
        Call::Unpack => unpack(record),
        Call::Pack => pack(record),
        Call::SplatPixelPattern => splat_pixel_pattern(record),
        Call::ConvertRegionWithSet => convert_region_with_set(record),
        _ => false,
    }
}

impl<'a> Record<'a, 512> {
    // One of the five areas.
    fn area(self, place: usize) -> &'a [u8; 72]
        requires { place < 5 }
        ensures { length result.now ≡ 72 }
    {
        let bytes = self.bytes;
        bytes[144 + 72 * place..].first_chunk().unwrap()
    }

    // How much is lent of an area.
    fn length(self, place: usize) -> usize
        requires { place < 3 }
        ensures { result ≤ 72 }
    {
        self.size(place).min(72)
    }

    // What is lent of an area to be read.
    fn lent(self, place: usize) -> &'a [u8]
        requires { place < 3 }
    {
        let area = self.area(place);
        &area[..self.length(place)]
    }

    // A side of a conversion's record: five parameters from one on.
    fn side(self, first: usize) -> Side
        requires { first ≤ 9 }
    {
        Side {
            start: self.long(first),
            pitch: self.long(first + 1).cast_signed(),
            slice_pitch: self.size(first + 2),
            x: self.number(first + 3),
            y: self.number(first + 4),
        }
    }

    // The region of a conversion's record.
    fn region(self) -> ConvertRegion {
        ConvertRegion {
            source: self.side(4),
            destination: self.side(9),
            depth: self.size(14),
            width: self.number(15),
            height: self.number(16),
        }
    }

    // The set that the third area of a conversion's record has.
    fn set(self) -> YuvSet {
        let numbers = self.area(2);
        YuvSet {
            luma_gain: words::le32(numbers),
            luma_offset: words::le32(&numbers[4..]),
            v_to_red: words::le32(&numbers[8..]),
            u_to_green: words::le32(&numbers[12..]),
            v_to_green: words::le32(&numbers[16..]),
            u_to_blue: words::le32(&numbers[20..]),
            chroma_centre: words::le32(&numbers[24..]),
        }
    }

    // The layout of a depth transfer's record.
    fn planes(self) -> PlaneLayout {
        PlaneLayout {
            width: self.size(4),
            height: self.size(5),
            depth_pitch: self.size(6),
            stencil_pitch: self.size(7),
        }
    }
}

// Parameters: lengths of source and destination; formats of destination and source; then of source
// and destination each start, pitch, slice pitch, column and row; depth, width and height. Areas:
// source, destination; destination after.
fn convert_region(record: Record<'_, 512>) -> bool {
    let mut dst = *record.area(1);
    let reply = pixel_convert::convert_region(
        &mut dst[..record.length(1)],
        record.number(2),
        record.lent(0),
        record.number(3),
        &record.region(),
    );
    reply.is_err() == record.is_refused() && dst == *record.area(3)
}

// Parameters as for convert_region. Areas: source, destination, the seven numbers of 32 bits;
// destination after.
fn convert_region_with_set(record: Record<'_, 512>) -> bool {
    let mut dst = *record.area(1);
    let reply = pixel_convert::convert_region_with_set(
        &mut dst[..record.length(1)],
        record.number(2),
        record.lent(0),
        record.number(3),
        &record.region(),
        &record.set(),
    );
    reply.is_err() == record.is_refused() && dst == *record.area(3)
}

// Parameters: lengths of packed, depth and stencil; format, width, height, depth pitch, stencil
// pitch, packed pitch. Areas: packed, depth, stencil; depth and stencil after.
fn unpack(record: Record<'_, 512>) -> bool {
    let mut depth = *record.area(1);
    let mut stencil = *record.area(2);
    let reply = depth_texture::unpack(
        &mut depth[..record.length(1)],
        &mut stencil[..record.length(2)],
        record.lent(0),
        record.size(8),
        record.number(3),
        record.planes(),
    );
    let same_planes = depth == *record.area(3) && stencil == *record.area(4);
    reply.is_err() == record.is_refused() && same_planes
}

// Parameters and areas as for unpack; packed after.
fn pack(record: Record<'_, 512>) -> bool {
    let mut packed = *record.area(0);
    let reply = depth_texture::pack(
        &mut packed[..record.length(0)],
        record.size(8),
        record.lent(1),
        record.lent(2),
        record.number(3),
        record.planes(),
    );
    reply.is_err() == record.is_refused() && packed == *record.area(3)
}

// Parameters: lengths of pixel and destination. Areas: pixel, destination; destination after.
fn splat_pixel_pattern(record: Record<'_, 512>) -> bool {
    let mut dst = *record.area(1);
    convert::splat_pixel_pattern(&mut dst[..record.length(1)], record.lent(0));
    dst == *record.area(3)
}
