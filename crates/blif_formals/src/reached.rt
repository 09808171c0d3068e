//! The first of the lines of some models.

ghost use Rattle.std.specs.Prelude.{◌≡◌, length};
ghost use Rattle.blif_models.specs.ModelFaults.{least};
ghost use Rattle.blif_formals.specs.Reached.{lines_met};

use crate::clashes::lesser;

/// The lowest line of the models that were met, where each model has one line at most.
pub fn first_met(met: &[bool], lines: &[Option<u64>]) -> Option<u64>
    requires { length lines.now ≡ length met.now }
    ensures { result ≡ least (lines_met met.now lines.now) }
{
    let mut first = None;
    for model in 0..met.len() {
        if met[model] {
            if let Some(line) = lines[model] {
                first = Some(lesser(line, first));
            }
        }
    }
    first
}
