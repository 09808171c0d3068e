//! What the words may ask for.

use edge_bits::List;

/// What `build` is asked for beside its workers and its limit.
#[derive(Drop)]
pub struct Options {
    /// `--sift`: a call that finds no room is tried again after a sift, and one sift follows at the end.
    pub sift: bool,
    /// `--store`: the diagrams of the outputs are written behind the report.
    pub store: bool,
    /// `--blif`: the diagrams of the outputs are written as a network of multiplexers, behind the report and what is stored.
    pub blif: bool,
    /// Each BITS, 1 to 16,384 of them: input i takes character i.
    pub patterns: List<List<bool>>,
}

/// A command, with what stands behind it.
#[derive(Drop)]
pub enum Order {
    /// `play`: the job of the input is played.
    Play,
    /// `build [--workers 1..16] [--limit 0..8000000] [--sift] [--store] [--blif] [BITS]..`: the report of the network of the input.
    Build {
        /// 1 to 16; 1 unless given.
        workers: u32,
        /// How many nodes beyond the permanent ones there may be, at most `MOST_LIMIT`; `USUAL_LIMIT` unless given.
        limit: u32,
        options: Options,
    },
    /// `load [BITS]..`: the report of the stored diagrams of the input.
    Load {
        /// Each BITS, 1 to 16,384 of them.
        patterns: List<List<bool>>,
    },
    /// `gen [--workers 1..16] K`: the summary of the report of a network that is made for K bits.
    Gen {
        /// 1 to 16; 1 unless given.
        workers: u32,
        /// K, 1 to `MOST_BITS`.
        bits: u32,
    },
}
