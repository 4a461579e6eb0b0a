//! What follows from the definition of a verdict. The body is empty: the clauses are the laws.

ghost use Rattle.zd_check.specs.Verdicts.{EachVolumeHasAVerdict, NoRefusedImageHasAVerdict};
ghost use Rattle.zd_check.specs.Verdicts.{OneVolumeHasOneVerdict, SameIsMadeEqual};

/// Each volume has a verdict and no other, and an image that is refused has none; and the verdict is
/// `Same` exactly where making the other set equal leaves the image as it is.
pub fn verdict_laws()
    ensures each { EachVolumeHasAVerdict }
    ensures one { OneVolumeHasOneVerdict }
    ensures refused { NoRefusedImageHasAVerdict }
    ensures same { SameIsMadeEqual }
{}
