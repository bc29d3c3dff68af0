// One-plane pixel images: the types of their formats and settings (scope paper, "Pixels"). The calls are in `pixels_calls`.
#![tactic(auto)]

// Format and precision stay numbers, and no enums: a setting may hold any, and the checks refuse those past the table (19, 20).

// Channels, bytes a pixel, precision code and largest X offset of a pixel format.
#[derive(Clone, Copy)]
pub struct PixelFormat {
    pub channels: u32,
    pub bytes: u32,
    pub precision: u32,
    pub offsets: u32,
}

// A pixel image: format code, sizes, what the format must have, X offset, start and line stride.
#[derive(Clone, Copy)]
pub struct PixelSetting {
    pub format: u32,
    pub width: u32,
    pub height: u32,
    pub channels: u32,
    pub precision: u32,
    pub offset: u32,
    pub start: u32,
    pub line: u32,
}
