// The rules behind the checks, one function each.
ghost use Rattle.std.specs.Prelude.{◌≡◌};
ghost use Rattle.pixels.specs.Formats.{format_of};
ghost use Rattle.pixels.specs.Settings.{pixel_bytes, kind_valid, strides_valid};

use pixels::{PixelFormat, PixelSetting};

// Channels and precision are the format's.
#[tactic(auto, unfolding(pixels::specs::Settings::kind_valid))]
pub(crate) fn kind_valid(image: PixelSetting, format: PixelFormat) -> bool
    requires { format ≡ format_of image.format }
    ensures { result ≡ kind_valid image }
{
    image.channels == format.channels && image.precision == format.precision
}

// Start and line are multiples of 32, and a line holds its pixels.
#[tactic(auto, using(pixels::proofs::FormatLaws::bytes_le), unfolding(pixels::specs::Settings::strides_valid))]
pub(crate) fn strides_valid(image: PixelSetting, bytes: u32) -> bool
    requires { bytes ≡ pixel_bytes image }
    ensures { result ≡ strides_valid image }
{
    let pixels = image.offset as u64 + image.width as u64;
    image.start % 32 == 0 && image.line % 32 == 0 && pixels * bytes as u64 <= image.line as u64
}
