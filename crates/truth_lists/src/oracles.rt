//! The two oracles, plain calls on lists of values and arithmetic on machine words, and how often each was met.

/// What each of the two says.
#[derive(Clone, Copy)]
pub struct Oracles<T> {
    pub lists: T,
    pub words: T,
}

impl<T> Oracles<Option<T>> {
    /// What the lists alone say.
    pub fn by_lists(said: T) -> Oracles<Option<T>> {
        Oracles {
            lists: Some(said),
            words: None,
        }
    }

    /// What the words alone say.
    pub fn by_words(said: T) -> Oracles<Option<T>> {
        Oracles {
            lists: None,
            words: Some(said),
        }
    }
}

/// How many replies were as each of the two says.
#[derive(Clone, Copy)]
pub struct Tally {
    /// By the lists, if they were asked.
    pub lists: Option<usize>,
    pub words: usize,
}

impl Tally {
    /// No reply.
    pub const NONE: Tally = Tally {
        lists: None,
        words: 0,
    };

    /// Counts a reply, where an oracle that was asked tells whether it is as due.
    pub fn count(&mut self, is_due: Oracles<Option<bool>>) {
        self.add(Tally {
            lists: is_due.lists.map(|is_due| usize::from(is_due)),
            words: usize::from(is_due.words == Some(true)),
        });
    }

    /// Adds another tally.
    pub fn add(&mut self, other: Tally) {
        if let Some(lists) = other.lists {
            self.lists = Some(self.lists.unwrap_or(0).saturating_add(lists));
        }
        self.words = self.words.saturating_add(other.words);
    }
}
