// Weights packed and read back, positions and counts: the calls on the definitions of `weights` (scope paper, "Weights").
#![tactic(auto)]

mod element;
mod measure;
mod read;
mod rules;
mod runs;
mod write;

ghost use Rattle.std.specs.Prelude.{◌≡◌, IfOk, length};
ghost use Rattle.refusal.specs.Checks.{in_order};
ghost use Rattle.refusal.specs.Codes.{answer_of};
ghost use Rattle.weights.specs.Rules.{setting_checks, weight_checks, element_checks};
ghost use Rattle.weights.specs.Calls.{pack_answer, pack_buffer, unpack_answer, unpack_elements, count_quantity, extent_quantity, position_quantity};

use element::Index;
use measure::Tensor;
use refusal::{Answer, Fault, Quantity, Refusal};
use weights::WeightLayout;

// Checks 1, 2 of a setting.
fn check_setting(layout: WeightLayout) -> Result<Tensor, Fault>
    ensures answered { answer_of result ≡ in_order (setting_checks layout) }
    ensures same { IfOk result (λ t. t.layout ≡ layout) }
{
    if !rules::sizes_valid(layout) {
        return Err(Fault(Refusal::Size, 0));
    }
    if 3 <= layout.precision {
        return Err(Fault(Refusal::Precision, 0));
    }
    Ok(Tensor { layout })
}

// Checks 1, 2, 6, 5 of a call that lends `given` elements and a buffer of `len` bytes.
fn check(layout: WeightLayout, given: usize, len: usize) -> Result<Tensor, Fault>
    ensures answered { answer_of result ≡ in_order (weight_checks layout given len) }
    ensures same { IfOk result (λ t. t.layout ≡ layout) }
{
    let tensor = check_setting(layout)?;
    if given as u64 != tensor.element_count() {
        return Err(Fault(Refusal::ElementCount, 0));
    }
    if (len as u64) < tensor.surface_bytes() {
        return Err(Fault(Refusal::BufferLength, 0));
    }
    Ok(tensor)
}

// Packs raw weights into a buffer: checks 1, 2, 6, 5, then 7 or 26.
pub fn pack(layout: WeightLayout, elements: &[i16], buffer: &mut [u8]) -> Answer
    ensures value { result ≡ pack_answer layout elements.now (length buffer.old) }
    ensures buffer_after { buffer.new ≡ pack_buffer layout elements.now buffer.old }
{
    let tensor = check(layout, elements.len(), buffer.len())?;
    elements::check_values(layout.precision, elements)?;
    write::runs(tensor, elements, buffer);
    let end = tensor.weight_bytes() as usize;
    let whole = tensor.surface_bytes() as usize;
    columns_calls::clear(end, whole - end, buffer);
    Ok(())
}

// Reads packed weights back into raw order: checks 1, 2, 6, 5.
pub fn unpack(layout: WeightLayout, buffer: &[u8], elements: &mut [i16]) -> Answer
    ensures value { result ≡ unpack_answer layout (length elements.old) (length buffer.now) }
    ensures elements_after { elements.new ≡ unpack_elements layout buffer.now elements.old }
{
    let checked = check(layout, elements.len(), buffer.len())?;
    read::runs(checked, buffer, elements);
    Ok(())
}

// How many elements a setting has: checks 1, 2.
pub fn count(layout: WeightLayout) -> Quantity
    ensures { result ≡ count_quantity layout }
{
    let counted = check_setting(layout)?;
    Ok(counted.element_count())
}

// How many bytes its packed surface has: checks 1, 2.
pub fn extent(layout: WeightLayout) -> Quantity
    ensures { result ≡ extent_quantity layout }
{
    let measured = check_setting(layout)?;
    Ok(measured.surface_bytes())
}

// Checks 1, 2, 9 of an element.
fn check_element(layout: WeightLayout, index: Index) -> Result<Tensor, Fault>
    ensures answered { answer_of result ≡ in_order (element_checks layout index.kernel index.channel index.row index.column) }
    ensures same { IfOk result (λ t. t.layout ≡ layout) }
{
    let tensor = check_setting(layout)?;
    if !rules::element_inside(layout, index) {
        return Err(Fault(Refusal::Bounds, 0));
    }
    Ok(tensor)
}

// The byte at which an element begins: checks 1, 2, 9.
pub fn position(layout: WeightLayout, kernel: u32, channel: u32, row: u32, column: u32) -> Quantity
    ensures { result ≡ position_quantity layout kernel channel row column }
{
    let index = Index {
        kernel,
        channel,
        row,
        column,
    };
    let tensor = check_element(layout, index)?;
    Ok(element::position_of(tensor, index))
}
