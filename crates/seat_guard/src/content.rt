//! What lies in the slot.

/// What all sessions share, as the rule sees it.
pub trait Content {
    ghost use Rattle.std.specs.Prelude.{List, Option, ℕ};
    ghost use Rattle.function_laws.specs.declared.history.Function.{Function};
    ghost use Rattle.function_laws.specs.Sizes.{Orders};
    ghost use Rattle.seat_guard.specs.declared.view.Held.{Held};

    // The edge denotes the function, and will as long as it is held.
    ghost keeps: { Self → Held → Type 0 };

    ghost board: { Self → List (Option Held) };

    // How many variables, how many elements, and how many slots.
    ghost counts: { Self → ℕ × ℕ × ℕ };

    // The orders of the variables and of the elements.
    ghost orders: { Self → Orders };

    // What the nodes that it has denote.
    ghost functions: { Self → List Function };

    // What was due as it last had no room for a node.
    ghost due: { Self → Option Function };
}
