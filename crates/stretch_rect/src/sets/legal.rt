//! A set of numbers that is known to be legal.
ghost use Rattle.stretch_rect.specs.Legal.{Legal};

use crate::sets::YuvSet;

/// A legal set of numbers.
#[derive(Clone, Copy)]
pub struct LegalSet {
    /// The numbers.
    pub numbers: YuvSet,
    ghost legal: { Legal numbers },
}
