//! Where the texels of a picture lie, and which regions of it are inside.

ghost use Rattle.viewer.specs.Pictures.{UprightByRows, CornersDecide, LastDecides};

/// A texel of a picture that starts at byte 0 and whose rows go on starts at the sum of its slices,
/// rows and columns, each of them times its bytes.
#[tactic(auto, using(crate::proofs::PicturesLaws::upright_by_rows))]
pub fn upright_texels_lie_by_rows()
    ensures { UprightByRows }
{}

/// A region that has a texel lies inside just where three texels of it do: the first one of its last
/// row in the first slice, and the last ones of its first and last row in the last slice.
#[tactic(auto, using(crate::proofs::PicturesLaws::corners_decide))]
pub fn corners_decide()
    ensures { CornersDecide }
{}

/// Of a picture whose rows go on, in any format, a region that has a texel lies inside just where
/// its last texel does: a texel is inside wherever one further on in slices, rows and columns is.
#[tactic(auto, using(crate::proofs::PicturesLaws::last_decides_all))]
pub fn last_texel_decides()
    ensures { LastDecides }
{}
