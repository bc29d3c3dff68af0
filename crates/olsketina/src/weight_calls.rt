// Direct-convolution weights.
ghost use Rattle.std.specs.Prelude.{◌≡◌, length};
ghost use Rattle.weights.specs.Calls.{pack_answer, pack_buffer, unpack_answer, unpack_elements, count_quantity, extent_quantity, position_quantity};
ghost use Rattle.olsketina.specs.Answers.{Answered, Valued};
ghost use Rattle.olsketina.specs.Words.{weights_from};

use crate::words::WEIGHTS_WORDS;
use crate::{answers, words};

// weights_calls::pack
#[unsafe(no_mangle)]
pub extern "C" fn olsketina_weights_pack(
    weights: &[u32; WEIGHTS_WORDS],
    elements: &[i16],
    buffer: &mut [u8],
    fault: &mut usize,
) -> u32
    ensures answered { Answered (pack_answer (weights_from weights.now) elements.now (length buffer.old)) result fault.new }
    ensures left { buffer.new ≡ pack_buffer (weights_from weights.now) elements.now buffer.old }
{
    let packed = weights_calls::pack(words::weights_of(weights), elements, buffer);
    answers::give(packed, fault)
}

// weights_calls::unpack
#[unsafe(no_mangle)]
pub extern "C" fn olsketina_weights_unpack(
    weights: &[u32; WEIGHTS_WORDS],
    buffer: &[u8],
    elements: &mut [i16],
    fault: &mut usize,
) -> u32
    ensures answered { Answered (unpack_answer (weights_from weights.now) (length elements.old) (length buffer.now)) result fault.new }
    ensures left { elements.new ≡ unpack_elements (weights_from weights.now) buffer.now elements.old }
{
    let unpacked = weights_calls::unpack(words::weights_of(weights), buffer, elements);
    answers::give(unpacked, fault)
}

// weights_calls::position
#[unsafe(no_mangle)]
pub extern "C" fn olsketina_weights_position(
    weights: &[u32; WEIGHTS_WORDS],
    kernel: u32,
    channel: u32,
    row: u32,
    column: u32,
    value: &mut u64,
    fault: &mut usize,
) -> u32
    ensures { Valued (position_quantity (weights_from weights.now) kernel channel row column) value.old result value.new fault.new }
{
    let layout = words::weights_of(weights);
    let position = weights_calls::position(layout, kernel, channel, row, column);
    answers::give_value(position, value, fault)
}

// weights_calls::count
#[unsafe(no_mangle)]
pub extern "C" fn olsketina_weights_count(
    weights: &[u32; WEIGHTS_WORDS],
    value: &mut u64,
    fault: &mut usize,
) -> u32
    ensures { Valued (count_quantity (weights_from weights.now)) value.old result value.new fault.new }
{
    let count = weights_calls::count(words::weights_of(weights));
    answers::give_value(count, value, fault)
}

// weights_calls::extent
#[unsafe(no_mangle)]
pub extern "C" fn olsketina_weights_extent(
    weights: &[u32; WEIGHTS_WORDS],
    value: &mut u64,
    fault: &mut usize,
) -> u32
    ensures { Valued (extent_quantity (weights_from weights.now)) value.old result value.new fault.new }
{
    let extent = weights_calls::extent(words::weights_of(weights));
    answers::give_value(extent, value, fault)
}
