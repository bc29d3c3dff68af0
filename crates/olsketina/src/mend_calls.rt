// Padding made zero again.
ghost use Rattle.std.specs.Prelude.{◌≡◌};
ghost use Rattle.padding.specs.Calls.{lent, mend_count, mend_left};
ghost use Rattle.olsketina.specs.Answers.{Valued};
ghost use Rattle.olsketina.specs.Words.{layout_from};

use crate::words::LAYOUT_WORDS;
use crate::{answers, words};

// padding_calls::mend
#[unsafe(no_mangle)]
pub extern "C" fn olsketina_padding_mend(
    layout: &[u32; LAYOUT_WORDS],
    first: u64,
    length: u64,
    part: &mut [u8],
    positions: &mut [u64],
    olds: &mut [u8],
    count: &mut u64,
    fault: &mut usize,
) -> u32
    ensures counted { Valued (mend_count (layout_from layout.now) first length (lent part.old positions.old olds.old)) count.old result count.new fault.new }
    ensures part_left { part.new ≡ (mend_left (layout_from layout.now) first length (lent part.old positions.old olds.old)).part }
    ensures positions_left { positions.new ≡ (mend_left (layout_from layout.now) first length (lent part.old positions.old olds.old)).positions }
    ensures olds_left { olds.new ≡ (mend_left (layout_from layout.now) first length (lent part.old positions.old olds.old)).olds }
{
    let q = words::layout_at(layout, 0);
    let mended = padding_calls::mend(q, first, length, part, positions, olds);
    answers::give_value(mended, count, fault)
}
