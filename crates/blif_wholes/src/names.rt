//! The names of a whole, by the numbers of its spots.

ghost use Rattle.std.specs.Prelude.{◌≡◌, ◌<◌, All, IfOk, Some, length, map, slice_get};
ghost use Rattle.blif_wholes.specs.Names.{IsSpotIn, named_by, words_in};

use crate::roles::Role;
use blif_drafts::whole_name;
use blif_formals::Words;
use blif_models::Spot;
use edge_bits::List;
use std::alloc::{AllocError, Global};
use std::marker::Model;

/// The names of a whole: its spots, the names of the models, and what each spot is. A name is made only where it is asked for.
#[derive(Drop)]
pub struct WholeNames {
    spots: Vec<Spot>,
    words: Vec<Words>,
    roles: Vec<Role>,
}

impl Model for WholeNames {
    ghost use Rattle.std.specs.Prelude.{◌≡◌, All, length, List as ListOf};
    ghost use Rattle.blif_wholes.specs.Names.{IsSpotIn, WholeName, named_by};

    ghost Value = { ListOf WholeName };

    ghost view = { λ names. named_by names.words.items names.spots.items names.roles.items };

    ghost invariant = { λ names. All (IsSpotIn names.words.items) names.spots.items × (length names.roles.items ≡ length names.spots.items) };
}

impl WholeNames {
    /// The names of these spots, where the models have these words, and each spot is what the role in its place says.
    pub fn new(spots: Vec<Spot>, words: Vec<Words>, roles: Vec<Role>) -> WholeNames
        requires spots { All (IsSpotIn words.items) spots.items }
        requires roles { length roles.items ≡ length spots.items }
        ensures { result ≡ named_by words.items spots.items roles.items }
    {
        WholeNames {
            spots,
            words,
            roles,
        }
    }

    /// How many there are.
    pub fn len(&self) -> usize
        ensures { result ≡ length self.now }
    {
        self.spots.len()
    }

    /// The role of the name at a place.
    pub fn role_at(&self, place: usize) -> Role
        requires { place < length self.now }
        ensures { slice_get (map (λ name. name.role) self.now) place ≡ Some result }
    {
        self.roles[place]
    }

    /// What the names are, in their order.
    pub fn roles(&self) -> &[Role]
        ensures { result.now ≡ map (λ name. name.role) self.now }
    {
        &self.roles
    }

    /// The word of the name at a place.
    pub fn word_at(&self, alloc: Global, place: usize) -> Result<List<u8>, AllocError>
        requires { place < length self.now }
        ensures { IfOk result (λ word. slice_get (words_in self.now) place ≡ Some word) }
    {
        let word = whole_name(alloc, &self.words, self.spots[place])?;
        Ok(word)
    }
}
