//! How the images of the two versions begin.

ghost use Rattle.std.specs.Prelude.{◌≡◌};
ghost use Rattle.mc_image.specs.Image as image;
ghost use Rattle.mc_image.specs.ImageReading as reading;

use mc_script::Version;

/// The bytes with which an image of the version begins.
pub(crate) fn magic(version: Version) -> &'static [u8]
    ensures { result.now ≡ image.magic version }
{
    match version {
        Version::One => b"MCR1",
        Version::Two => b"MCR2",
    }
}

/// The version whose images begin with these bytes.
#[tactic(auto, unfolding(crate::specs::ImageReading::version_at))]
pub(crate) fn version_at(bytes: &[u8]) -> Option<Version>
    ensures { result ≡ reading.version_at bytes.now }
{
    if bytes == magic(Version::One) {
        Some(Version::One)
    } else if bytes == magic(Version::Two) {
        Some(Version::Two)
    } else {
        None
    }
}
