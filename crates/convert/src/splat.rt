//! A pattern of bytes repeated over a buffer, at the speed of memory. specs/Splat says which byte
//! stands where; docs/DECISIONS.md, Shape, has the measurements that the loops rest on.
//! Ported from convert.rs of athei/mtld3d (an altered version, see NOTICE).
#![tactic(auto)]

ghost use Rattle.std.specs.Prelude.{◌≡◌, ◌+◌, ◌*◌, ◌-◌, ◌%◌, ◌≤◌, ◌<◌, length, take, drop};
ghost use Rattle.std.proofs.lemmas.List.Edits.{sets};
ghost use Rattle.convert.specs.Splat.{Splat, WholePatterns};

// The pattern, a byte a turn; `phase` is the place in the pattern.
#[tactic(auto, using(crate::proofs::Splats::done_byte, crate::proofs::Splats::phase_starts, crate::proofs::Splats::phase_goes_on))]
fn splat_bytes(dst: &mut [u8], pixel: &[u8])
    requires { 0 < length pixel.now }
    ensures { Splat pixel.now dst.old dst.new }
{
    let mut phase = 0;
    for byte in dst.iter_mut() {
        *byte = pixel[phase];
        phase += 1;
        if phase == pixel.len() {
            phase = 0;
        }
    }
}

// The bytes of one store of a block: a multiple of 1, 2, 3, 4, 6, 8, 12, 16, 24 and 48.
const BLOCK: usize = 48;

// A block at the front of a slice, in a loop of constant length.
#[tactic(auto, using(crate::proofs::Splats::block_turn))]
fn put_block(out: &mut [u8], block: &[u8; 48])
    requires { 48 ≤ length out.old }
    ensures { out.new ≡ sets out.old 0 block.now }
{
    for i in 0..BLOCK {
        out[i] = block[i];
    }
}

// A pattern whose length divides that of a block, a block a turn.
fn splat_blocks(dst: &mut [u8], pixel: &[u8])
    requires { (0 < length pixel.now) × (48 % length pixel.now ≡ 0) }
    ensures { Splat pixel.now dst.old dst.new }
{
    let mut block = [0u8; 48];
    splat_bytes(&mut block, pixel);
    let blocks = dst.len() / BLOCK;
    for turn in 0..blocks {
        put_block(&mut dst[turn * BLOCK..], &block);
    }
    splat_bytes(&mut dst[blocks * BLOCK..], pixel);
}

// A block at `at`, from `back` bytes before.
#[tactic(auto, using(crate::proofs::Splats::copied))]
fn copy_block(dst: &mut [u8], at: usize, back: usize)
    requires { (back ≤ at) × (at + 48 ≤ length dst.old) }
    ensures { dst.new ≡ sets dst.old at (take 48 (drop (at - back) dst.old)) }
{
    let from = at - back;
    let block = *dst[from..].first_chunk::<48>().unwrap();
    put_block(&mut dst[at..], &block);
}

// How far back a block is copied from at least: its bytes have left the processor's store buffer by
// then.
const FAR: usize = 512;

// The bytes of a whole number of patterns of n bytes that reach at least so far.
fn whole_patterns(n: usize) -> usize
    requires { (0 < n) × (n < 9223372036854775808) }
    ensures { WholePatterns n result }
{
    FAR.next_multiple_of(n)
}

// Any other pattern: a whole number of patterns by the byte, and from there on blocks of what
// stands as far back. The last block ends where the slice does.
fn splat_copies(dst: &mut [u8], pixel: &[u8])
    requires { 0 < length pixel.now }
    ensures { Splat pixel.now dst.old dst.new }
{
    let len = dst.len();
    let back = whole_patterns(pixel.len());
    if len < back + BLOCK {
        splat_bytes(dst, pixel);
        return;
    }
    splat_bytes(&mut dst[..back], pixel);
    for at in (back..len - BLOCK).step_by(BLOCK) {
        copy_block(dst, at, back);
    }
    copy_block(dst, len - BLOCK, back);
}

/// Repeats a pattern over a slice: byte i becomes byte i mod n of a pattern of n bytes. An empty
/// pattern changes nothing.
pub fn splat_pixel_pattern(dst: &mut [u8], pixel: &[u8])
    ensures bytes { Splat pixel.now dst.old dst.new }
{
    let n = pixel.len();
    if n == 0 {
        return;
    }
    if BLOCK % n == 0 {
        splat_blocks(dst, pixel);
    } else {
        splat_copies(dst, pixel);
    }
}
