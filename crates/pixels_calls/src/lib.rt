// The check of a pixel image's setting and the positions of its pixels: the calls on the definitions of `pixels` (scope paper, "Pixels").
#![tactic(auto)]

mod rules;
mod table;

ghost use Rattle.std.specs.Prelude.{◌≡◌, ◌<◌};
ghost use Rattle.refusal.specs.Checks.{Accepted};
ghost use Rattle.pixels.specs.Formats.{format_of};
ghost use Rattle.pixels.specs.Settings.{setting_answer, pixel_position, position_quantity};

use pixels::{PixelFormat, PixelSetting};
use refusal::{Answer, Fault, Quantity, Refusal};

// The format of a code; a code past the last has none, and each of its numbers is 0.
pub fn format(code: u32) -> PixelFormat
    ensures { result ≡ format_of code }
{
    table::format_of(code).unwrap_or(PixelFormat {
        channels: 0,
        bytes: 0,
        precision: 0,
        offsets: 0,
    })
}

// Checks 19, 1, 20, 21, 22.
#[tactic(auto, unfolding(pixels::specs::Settings::setting_answer, pixels::specs::Settings::setting_checks, refusal::specs::Checks::in_order, refusal::specs::Checks::require_at))]
pub fn setting(image: PixelSetting) -> Answer
    ensures { result ≡ setting_answer image }
{
    let Some(format) = table::format_of(image.format) else {
        return Err(Fault(Refusal::PixelFormat, 0));
    };
    if !refusal::size_valid(8192, image.width) || !refusal::size_valid(8192, image.height) {
        return Err(Fault(Refusal::Size, 0));
    }
    if !rules::kind_valid(image, format) {
        return Err(Fault(Refusal::PixelKind, 0));
    }
    if format.offsets < image.offset {
        return Err(Fault(Refusal::XOffset, 0));
    }
    if !rules::strides_valid(image, format.bytes) {
        return Err(Fault(Refusal::PixelStrides, 0));
    }
    Ok(())
}

// The byte at which a pixel of an accepted setting begins.
fn pixel_start(image: PixelSetting, x: u32, y: u32) -> u64
    requires { (setting_answer image ≡ Accepted) × (x < image.width) × (y < image.height) }
    ensures { result ≡ pixel_position image x y }
{
    let format = format(image.format);
    let lines = y as u64 * image.line as u64;
    let pixels = x as u64 + image.offset as u64;
    image.start as u64 + lines + pixels * format.bytes as u64
}

// Checks 19, 1, 20, 21, 22, 23, and the byte at which pixel (x, y) begins.
#[tactic(auto, unfolding(pixels::specs::Settings::position_quantity, pixels::specs::Settings::setting_answer, pixels::specs::Settings::setting_checks, refusal::specs::Checks::in_order, refusal::specs::Checks::require_at, refusal::specs::Checks::given))]
pub fn position(image: PixelSetting, x: u32, y: u32) -> Quantity
    ensures { result ≡ position_quantity image x y }
{
    setting(image)?;
    if image.width <= x || image.height <= y {
        return Err(Fault(Refusal::PixelOutside, 0));
    }
    Ok(pixel_start(image, x, y))
}
