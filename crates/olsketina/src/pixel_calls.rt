// Pixel images, and integer conversion.
ghost use Rattle.pixels.specs.Settings.{setting_answer, position_quantity};
ghost use Rattle.quantize.specs.Quantize.{quantize_answer};
ghost use Rattle.olsketina.specs.Answers.{Answered, Valued, ConversionGiven};
ghost use Rattle.olsketina.specs.Words.{image_from};

use crate::words::IMAGE_WORDS;
use crate::{answers, words};

// pixels_calls::setting
#[unsafe(no_mangle)]
pub extern "C" fn olsketina_pixels_setting(image: &[u32; IMAGE_WORDS], fault: &mut usize) -> u32
    ensures { Answered (setting_answer (image_from image.now)) result fault.new }
{
    let checked = pixels_calls::setting(words::image_of(image));
    answers::give(checked, fault)
}

// pixels_calls::position
#[unsafe(no_mangle)]
pub extern "C" fn olsketina_pixels_position(
    image: &[u32; IMAGE_WORDS],
    x: u32,
    y: u32,
    value: &mut u64,
    fault: &mut usize,
) -> u32
    ensures { Valued (position_quantity (image_from image.now) x y) value.old result value.new fault.new }
{
    let position = pixels_calls::position(words::image_of(image), x, y);
    answers::give_value(position, value, fault)
}

// quantize::convert
#[unsafe(no_mangle)]
pub extern "C" fn olsketina_quantize_convert(
    d: i32,
    offset: i16,
    scale: i16,
    shift: u32,
    precision: u32,
    value: &mut i16,
    held: &mut u32,
    fault: &mut usize,
) -> u32
    ensures { ConversionGiven (quantize_answer d offset scale shift precision) value.old held.old result value.new held.new fault.new }
{
    let converted = quantize::convert(d, offset, scale, shift, precision);
    answers::give_converted(converted, value, held, fault)
}
