// Answers as numbers: what a call returns, and what it stores.
ghost use Rattle.olsketina.specs.Answers.{Answered, Valued, ConversionGiven};

use quantize::Converted;
use refusal::{Answer, Fault};

// The number of an answer; its index at fault is stored.
pub(crate) fn give(answer: Answer, fault: &mut usize) -> u32
    ensures { Answered answer result fault.new }
{
    *fault = refusal::fault_index(answer);
    refusal::answer_code(answer)
}

// The number of what a call gave; its index at fault is stored, and the value where there is one.
pub(crate) fn give_value<T: Copy>(given: Result<T, Fault>, value: &mut T, fault: &mut usize) -> u32
    ensures { Valued given value.old result value.new fault.new }
{
    match given {
        Ok(v) => {
            *value = v;
            give(Ok(()), fault)
        }
        Err(refused) => give(Err(refused), fault),
    }
}

// The number of a conversion's answer; its index at fault is stored, and where there is a value, it and whether it was held.
pub(crate) fn give_converted(
    converted: Result<Converted, Fault>,
    value: &mut i16,
    held: &mut u32,
    fault: &mut usize,
) -> u32
    ensures { ConversionGiven converted value.old held.old result value.new held.new fault.new }
{
    match converted {
        Ok(c) => {
            *value = c.value;
            *held = u32::from(c.held);
            give(Ok(()), fault)
        }
        Err(refused) => give(Err(refused), fault),
    }
}
