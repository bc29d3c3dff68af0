// Packing: all runs written.
ghost use Rattle.std.specs.Prelude.{◌≡◌, length};
ghost use Rattle.refusal.specs.Checks.{in_order, Accepted};
ghost use Rattle.weights.specs.Rules.{weight_checks};
ghost use Rattle.weights_calls.specs.Steps.{written};

use crate::measure::Tensor;
use crate::runs;
use crate::runs::Run;

// Writes all runs: the bytes of every element.
pub(crate) fn runs(tensor: Tensor, elements: &[i16], buffer: &mut [u8])
    requires { in_order (weight_checks tensor.layout (length elements.now) (length buffer.old)) ≡ Accepted }
    ensures { buffer.new ≡ written tensor.layout elements.now buffer.old }
{
    let mut run = Run {
        first: 0,
        block: 0,
        kernel: 0,
    };
    // A while: it goes on by the run that next gives, not by one.
    while run.first < tensor.layout.kernels {
        columns_calls::write(runs::run_columns(tensor, run), elements, buffer);
        run = runs::next(tensor, run);
    }
}
