//! What a fill hands back: a texel's bytes, or that there are none.
ghost use Rattle.std.specs.Prelude.{◌≡◌};

/// One texel's bytes: the first `length` of `bytes`, and zeros after them.
#[derive(Clone, Copy)]
#[repr(C)]
pub struct FillPixel {
    /// The texel, and zeros up to sixteen bytes.
    pub bytes: [u8; 16],
    /// How many of them the texel has.
    pub length: u32,
}

/// The format code has no fill: refusal 5.
#[derive(Clone, Copy, Debug, PartialEq, Eq)]
pub struct NoFill;

// The number of that refusal.
impl From<NoFill> for u32 {
    ghost from_gives = { λ _ number. number ≡ 5 };

    fn from(_refusal: NoFill) -> u32 {
        5
    }
}
