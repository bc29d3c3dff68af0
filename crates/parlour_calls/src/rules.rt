// The checks of painting, in their order, and the box of the cube that is painted.
ghost use Rattle.std.specs.Prelude.{◌≡◌};
ghost use Rattle.refusal.specs.Checks.{in_order, Accepted};
ghost use Rattle.pixels.specs.Settings.{setting_answer};
ghost use Rattle.regions.specs.Rules.{access_of};
ghost use Rattle.parlour.specs.Rules.{kind_taken, image_end, picture_checks};
ghost use Rattle.parlour_calls.specs.Steps.{target_found};

use layout::{CubeLayout, ElementBox};
use pixels::PixelSetting;
use refusal::{Answer, Fault, Refusal};
use regions::RegionTable;

// The format is not fp16, and the channels are the cube's.
fn kind_taken(layout: CubeLayout, image: PixelSetting) -> bool
    ensures { result ≡ kind_taken layout image }
{
    let format = pixels_calls::format(image.format);
    format.precision != 2 && image.channels == layout.channels
}

// The byte behind the last pixel.
fn image_end(image: PixelSetting) -> u64
    requires { setting_answer image ≡ Accepted }
    ensures { result ≡ image_end image }
{
    let format = pixels_calls::format(image.format);
    let last = pixels_calls::position(image, image.width - 1, image.height - 1).unwrap();
    last + format.bytes as u64
}

// Checks 19, 1, 20, 21, 22, 29, 2, 16, 30.
pub(crate) fn check_picture(
    layout: CubeLayout,
    image: PixelSetting,
    shift: u32,
    given: usize,
) -> Answer
    ensures { result ≡ in_order (picture_checks layout image shift given) }
{
    pixels_calls::setting(image)?;
    if !kind_taken(layout, image) {
        return Err(Fault(Refusal::ImageKind, 0));
    }
    quantize::check(shift, layout.precision)?;
    if (given as u64) < image_end(image) {
        return Err(Fault(Refusal::PixelLength, 0));
    }
    Ok(())
}

// The box of the cube that the region in a slot is, for a picture of its size. Checks 1 to 4, 8, 25, 9, 5.
pub(crate) fn find_target(
    table: RegionTable,
    slot: u32,
    id: u32,
    image: PixelSetting,
    len: usize,
) -> Result<ElementBox, Fault>
    ensures { result ≡ target_found (access_of table slot id) image len }
{
    let all = regions_calls::find(table, slot, id)?;
    if image.width != all.columns {
        return Err(Fault(Refusal::Bounds, 0));
    }
    if image.height != all.rows {
        return Err(Fault(Refusal::Bounds, 0));
    }
    layout_calls::check_room(table.layout, all, len)?;
    Ok(all)
}
