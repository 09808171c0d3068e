//! What a command of a job does.

use edge_bits::List;
use function_laws::{Making, Order};

/// What a command does. Registers go by number of assignment in their section, from 0.
#[derive(Drop)]
pub enum Act {
    /// `r = COMMAND ..`: a function is made of others.
    Makes(Making<u32, List<u32>, List<(u32, u32)>>),
    /// `r = copy A`: what the register has, under another name.
    Copy(u32),
    /// `r = fetch K A`: what was last posted to the cell, or what the register has where nothing was.
    Fetch(u8, u32),
    /// `post K A`: the cell gets what the register has.
    Post(u8, u32),
    /// `drop A`: the register is let go.
    Drop(u32),
    /// `same A B`: whether two registers of one kind have the same function.
    Same(u32, u32),
    /// `leq A B`: whether the second register holds wherever the first does.
    Leq(u32, u32),
    /// `eval A bits`: the value of a register, where bit i is the value of variable i (of a family: of element i).
    Eval(u32, List<bool>),
    /// `sweep`: slots that nothing reaches are freed.
    Sweep,
    /// `swap L`, of the elements `eswap L`: the level and the next of the order are exchanged.
    Swap(Order, u32),
    /// `sift`, of the elements `esift`: the order is sifted in one block.
    Sift(Order),
}
