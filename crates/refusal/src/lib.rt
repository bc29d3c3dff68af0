// Why a call was refused, and what a call answers (scope paper, "Refusal numbers").
#![tactic(auto)]

ghost use Rattle.std.specs.Prelude.{◌≡◌};
ghost use Rattle.refusal.specs.Codes.{code_of, answer_code, fault_index};
ghost use Rattle.refusal.specs.Sizes.{size_valid};

// One variant for each row of the paper's table, with the row's number.
#[derive(Clone, Copy, Debug, PartialEq, Eq)]
pub enum Refusal {
    Size = 1,
    Precision = 2,
    CubeStrides = 3,
    CubeStart = 4,
    BufferLength = 5,
    ElementCount = 6,
    Int8Range = 7,
    Slot = 8,
    Bounds = 9,
    Overlap = 10,
    TableLength = 11,
    XSelect = 12,
    XEnd = 13,
    YSelect = 14,
    YEnd = 15,
    Shift = 16,
    Counters = 17,
    OutputLength = 18,
    PixelFormat = 19,
    PixelKind = 20,
    XOffset = 21,
    PixelStrides = 22,
    PixelOutside = 23,
    ScriptLine = 24,
    OwnerId = 25,
    Fp16Nan = 26,
    ImageKind = 29,
    PixelLength = 30,
}

// A refusal, and the index at fault (the paper's "place"): 0 where no single element is at fault.
#[derive(Clone, Copy, Debug, PartialEq, Eq)]
pub struct Fault(pub Refusal, pub usize);

// Accepted, or refused.
pub type Answer = Result<(), Fault>;

// A number, or refused.
pub type Quantity = Result<u64, Fault>;

// The paper's number of a refusal.
pub fn code(r: Refusal) -> u32
    ensures { result ≡ code_of r }
{
    r as u32
}

// The paper's number of an answer: 0 where it was accepted.
pub fn answer_code(a: Answer) -> u32
    ensures { result ≡ answer_code a }
{
    match a {
        Ok(()) => 0,
        Err(fault) => code(fault.0),
    }
}

// The index at fault: 0 where the call was accepted.
pub fn fault_index(a: Answer) -> usize
    ensures { result ≡ fault_index a }
{
    match a {
        Ok(()) => 0,
        Err(fault) => fault.1,
    }
}

// Whether a size is valid: 1 to `most`.
pub fn size_valid(most: u32, n: u32) -> bool
    ensures { result ≡ size_valid most n }
{
    if n < 1 {
        return false;
    }
    n <= most
}
