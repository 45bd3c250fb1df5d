//! What several have seen.
ghost use Rattle.std.specs.Prelude.{◌≡◌, ◌+◌, ◌^◌, ◌<◌, ◌++◌, ◌∷◌, [], length};

use crate::front::Front;
use span_seats::TableName;
use std::alloc::{AllocError, Global};
use std::collections::LinkedList;
use std::marker::Model;

/// Fronts of the history named `T`: what several have seen of it.
#[derive(Drop)]
pub struct Fronts<T: TableName> {
    // None where there is no front, as a list needs an allocator to be empty; each place has one.
    pub(crate) places: Option<LinkedList<Option<Front<T>>>>,
}

impl<T: TableName> Model for Fronts<T> {
    ghost use Rattle.std.specs.Prelude.{◌≡◌, List, IfSome, length};
    ghost use Rattle.span_history.specs.Own.{FrontView};
    ghost use Rattle.span_history.specs.inside.Places.{fronts_at, fronts_in};

    ghost Value = { List FrontView };

    ghost view = { λ f. fronts_in f.places };

    ghost invariant = { λ f. IfSome f.places (λ places. length places ≡ length (fronts_at places)) };
}

impl<T: TableName> Fronts<T> {
    /// No front.
    pub fn none() -> Fronts<T>
        ensures { result ≡ [] }
    {
        Fronts { places: None }
    }

    /// All fronts of both, of which there are fewer than 2^63. It allocates nothing.
    pub fn join(self, other: Fronts<T>) -> Fronts<T>
        requires { length self + length other < 2 ^ 63 }
        ensures { result ≡ self ++ other }
    {
        let Fronts { places: first } = self;
        let Fronts { places: second } = other;
        match (first, second) {
            (None, places) | (places, None) => Fronts { places },
            (Some(mut places), Some(mut more)) => {
                let _joined = places.append(&mut more);
                Fronts {
                    places: Some(places),
                }
            }
        }
    }
}

/// Memory for one front among others, which is taken before it is needed.
#[derive(Drop)]
pub struct Place<T: TableName> {
    place: LinkedList<Option<Front<T>>>,
}

impl<T: TableName> Model for Place<T> {
    ghost use Rattle.std.specs.Prelude.{◌≡◌, ◌∷◌, [], None};

    ghost Value = { Unit {0} };

    ghost view = { λ _. tt };

    ghost invariant = { λ p. p.place ≡ None ∷ [] };
}

impl<T: TableName> Place<T> {
    /// A place with no front. The only error is that memory was refused.
    pub fn new(alloc: Global) -> Result<Place<T>, AllocError> {
        let mut place = LinkedList::new(alloc);
        match place.push_back(None) {
            Ok(()) => Ok(Place { place }),
            Err(_) => Err(AllocError),
        }
    }

    /// The front, alone.
    pub fn filled(self, front: Front<T>) -> Fronts<T>
        ensures { result ≡ front ∷ [] }
    {
        let mut place = self.place;
        if let Some(empty) = place.front_mut() {
            *empty = Some(front);
        }
        Fronts {
            places: Some(place),
        }
    }
}
