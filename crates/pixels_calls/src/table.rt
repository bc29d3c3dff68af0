// The pixel formats as one constant table. A pixel's components are numbered from the lowest address.
ghost use Rattle.std.specs.Prelude.{◌≡◌, ◌≤◌, ◌<◌, MatchOption};
ghost use Rattle.pixels.specs.Formats.{format_of};

use pixels::PixelFormat;

// What formats have, by their channels and the type of one.
const ONE_INT8: PixelFormat = PixelFormat {
    channels: 1,
    bytes: 1,
    precision: 0,
    offsets: 31,
};

const ONE_INT16: PixelFormat = PixelFormat {
    channels: 1,
    bytes: 2,
    precision: 1,
    offsets: 15,
};

const ONE_FP16: PixelFormat = PixelFormat {
    channels: 1,
    bytes: 2,
    precision: 2, // fp16: a floating-point image is converted to nothing else
    offsets: 15,
};

const FOUR_INT16: PixelFormat = PixelFormat {
    channels: 4,
    bytes: 8,
    precision: 1,
    offsets: 3,
};

const FOUR_FP16: PixelFormat = PixelFormat {
    channels: 4,
    bytes: 8,
    precision: 2,
    offsets: 3,
};

const FOUR_INT8: PixelFormat = PixelFormat {
    channels: 4,
    bytes: 4,
    precision: 0,
    offsets: 7,
};

// The formats, each at its code.
const FORMATS: [PixelFormat; 17] = [
    ONE_INT8, // T_R8
    ONE_INT16, // T_R10
    ONE_INT16, // T_R12
    ONE_INT16, // T_R16
    ONE_INT16, // T_R16_I
    ONE_FP16, // T_R16_F
    FOUR_INT16, // T_A16B16G16R16
    FOUR_INT16, // T_X16B16G16R16
    FOUR_FP16, // T_A16B16G16R16_F
    FOUR_INT16, // T_A16Y16U16V16
    FOUR_INT16, // T_V16U16Y16A16
    FOUR_FP16, // T_A16Y16U16V16_F
    FOUR_INT8, // T_A8B8G8R8
    FOUR_INT8, // T_A8R8G8B8
    FOUR_INT8, // T_B8G8R8A8
    FOUR_INT8, // T_R8G8B8A8
    FOUR_INT8, // T_V8U8Y8A8
];

// The format of a code; a code past the last has none.
pub(crate) fn format_of(code: u32) -> Option<PixelFormat>
    ensures { MatchOption result (16 < code) (λ format. (code ≤ 16) × (format ≡ format_of code)) }
{
    FORMATS.get(code as usize).copied()
}
