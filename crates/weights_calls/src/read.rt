// Unpacking: all runs read.
ghost use Rattle.std.specs.Prelude.{◌≡◌, length};
ghost use Rattle.refusal.specs.Checks.{in_order, Accepted};
ghost use Rattle.weights.specs.Rules.{weight_checks};
ghost use Rattle.weights.specs.Contents.{unpacked};

use crate::measure::Tensor;
use crate::runs;
use crate::runs::Run;

// Reads all runs: every element.
pub(crate) fn runs(tensor: Tensor, buffer: &[u8], elements: &mut [i16])
    requires { in_order (weight_checks tensor.layout (length elements.old) (length buffer.now)) ≡ Accepted }
    ensures { elements.new ≡ unpacked tensor.layout buffer.now }
{
    let mut run = Run {
        first: 0,
        block: 0,
        kernel: 0,
    };
    // A while: it goes on by the run that next gives, not by one.
    while run.first < tensor.layout.kernels {
        columns_calls::read(runs::run_columns(tensor, run), buffer, elements);
        run = runs::next(tensor, run);
    }
}
