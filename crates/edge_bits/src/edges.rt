//! The kinds of diagram, arcs to nodes, and the node lines of stored diagrams.

ghost use Rattle.std.specs.Prelude.{◌≡◌, ◌<◌, ◌^◌, false, not};

use std::marker::Model;

/// The three kinds of diagram.
#[derive(Debug, Clone, Copy, PartialEq, Eq)]
pub enum Kind {
    /// A binary decision diagram (Bryant 1986), with complemented else arcs (Brace, Rudell and Bryant 1990).
    Bdd,
    /// An algebraic decision diagram: whole numbers at its leaves.
    Add,
    /// A zero-suppressed decision diagram (Minato 1993): a family of combinations.
    Zdd,
}

/// An arc to a node: one word of 32 bits. In ADDs and ZDDs no arc is complemented.
#[derive(Debug, Clone, Copy, PartialEq, Eq)]
pub struct Edge {
    /// Twice the slot, and 1 more where the arc complements.
    word: u32,
}

impl Model for Edge {
    ghost use Rattle.std.proofs.Common.{ap};
    ghost use Rattle.edge_bits.specs.Edges.{EdgeView};

    ghost Value = { EdgeView };

    ghost use Rattle.edge_bits.specs.Words.{edge_of_word, word_of_edge};
    ghost use Rattle.edge_bits.specs.EdgeLaws.{word_back};

    ghost view = { λ edge. edge_of_word edge.word };

    ghost inverse = { λ edge. record { word = word_of_edge edge } };

    ghost inverse_ok = { λ fields _. ap (λ word. record { word = word }) (word_back fields.word) };
}

impl Edge {
    ghost use Rattle.edge_bits.specs.Words.{edge_of_word, word_of_edge};

    /// The arc to this slot, which is below 2^31.
    pub fn new(index: u32, complement: bool) -> Edge
        requires low { index < 2 ^ 31 }
        ensures { result ≡ record { index = index; complement = complement } }
    {
        Edge {
            word: 2 * index + complement as u32,
        }
    }

    /// The arc of a word.
    pub fn from_word(word: u32) -> Edge
        ensures { result ≡ edge_of_word word }
    {
        Edge { word }
    }

    /// The word of the arc: twice the slot, and 1 more where the arc complements.
    #[tactic(auto, using(crate::specs::EdgeLaws::word_back))]
    pub fn word(&self) -> u32
        ensures { result ≡ word_of_edge self.now }
    {
        self.word
    }

    /// The slot that the arc leads to.
    pub fn index(&self) -> u32
        ensures { result ≡ self.now.index }
    {
        self.word / 2
    }

    /// Whether the arc complements the function there.
    pub fn complement(&self) -> bool
        ensures { result ≡ self.now.complement }
    {
        self.word % 2 == 1
    }

    /// The arc to the same slot that doesn't complement.
    pub fn regular(&self) -> Edge
        ensures { result ≡ record self.now { complement = false } }
    {
        Edge {
            word: self.word - self.word % 2,
        }
    }

    /// The arc to the same slot with the other complement.
    pub fn flip(&self) -> Edge
        ensures { result ≡ record self.now { complement = not self.now.complement } }
    {
        Edge {
            word: self.word ^ 1,
        }
    }
}

/// A node line of a stored diagram (DDDMP-2.0). Lines are counted from 1.
#[derive(Debug, Clone, Copy, PartialEq, Eq)]
pub struct Line {
    /// The variable.
    pub var: u32,
    /// The line of the then child.
    pub hi: u32,
    /// The line of the else child, negative where the arc is complemented.
    pub lo: i32,
}
