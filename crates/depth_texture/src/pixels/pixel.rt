//! A pixel whose depth is known to be a number: a NaN has no bits of its own, so none is packed or
//! stored.
ghost use Rattle.std.specs.Prelude.{not, T};
ghost use Rattle.std.specs.Float.Ieee.{is_nan};

use crate::pixels::DepthStencil;

/// What a pixel stands for, where its depth is a number.
#[derive(Clone, Copy)]
pub struct Pixel {
    /// The depth and the stencil.
    pub value: DepthStencil,
    ghost number: { T (not (is_nan value.depth)) },
}
