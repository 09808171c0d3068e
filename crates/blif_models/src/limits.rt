//! The line by which the limits are passed.

ghost use Rattle.std.specs.Prelude.{◌≡◌};
ghost use Rattle.blif_models.specs.ModelFaults.{passing_line};

/// A line of the main model with the signals and the inputs that it adds to the whole. 2^64 - 1 stands for all from there on.
#[derive(Debug, Clone, Copy, PartialEq, Eq, Drop)]
pub struct Adding {
    pub line: u64,
    pub signals: u64,
    pub inputs: u64,
}

/// The line of the first of these, in their order, by which there are more signals or more inputs than so many.
pub fn line_passing(most_signals: u64, most_inputs: u64, adding: &[Adding]) -> Option<u64>
    ensures { result ≡ passing_line most_signals most_inputs 0 0 adding.now }
{
    let mut signals_left = most_signals;
    let mut inputs_left = most_inputs;
    for one in adding {
        if one.signals > signals_left || one.inputs > inputs_left {
            return Some(one.line);
        }
        signals_left -= one.signals;
        inputs_left -= one.inputs;
    }
    None
}
