//! Reclamation of dead slots.

ghost use Rattle.std.specs.Prelude.{◌≡◌, None, false};
ghost use Rattle.dead_sweep.specs.Swept.{IsSwept};

use crate::frees::free_all;
use crate::marks::mark_all;
use node_store::Whole;

/// How many slots a sweep freed, and how many it left in use.
#[derive(Debug, Clone, Copy, PartialEq, Eq)]
pub struct Swept {
    pub freed: u32,
    pub in_use: u32,
}

/// Frees exactly the slots that are reached neither from a permanent slot nor from one whose count it read as above 0.
/// No sweep and no swap may be half made. What is left are as many slots as the functions of those that were read as
/// counted and the permanent ones have distinct parts under the two orders. It takes no memory and refuses nothing.
pub fn sweep<W: Whole>(w: &mut W) -> Swept
    requires idle { (W.view w.old).sweeping ≡ false }
    requires whole { (W.view w.old).half ≡ None }
    ensures { IsSwept W.others (W.view w.old) (W.view w.new) result }
{
    w.sweep_in();
    let before = w.in_use();
    mark_all(w);
    free_all(w);
    let in_use = w.in_use();
    w.sweep_out();
    Swept {
        freed: before - in_use,
        in_use,
    }
}
