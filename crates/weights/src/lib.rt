// Direct-convolution weights: the type of their layout (scope paper, "Weights"). The calls are in `weights_calls`.
#![tactic(auto)]

// Kernels, channels, rows and columns of a weight tensor (the scope paper's K, C, R, S), and its precision code.
#[derive(Clone, Copy)]
pub struct WeightLayout {
    pub kernels: u32,
    pub channels: u32,
    pub rows: u32,
    pub columns: u32,
    pub precision: u32,
}
