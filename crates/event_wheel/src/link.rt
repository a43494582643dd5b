// A key, or none, in eight bytes.
ghost use Rattle.std.specs.Prelude.{◌≡◌, ◌-◌, ◌^◌, ◌<◌, not, is_some, Some, None};
ghost use Rattle.std.specs.Option.{option_or};

use std::marker::Model;
use std::mem::size_of;

/// The key of a node, or none. It takes eight bytes: the greatest number is no key.
#[derive(Clone, Copy, Debug)]
pub struct Link {
    key: usize,
}

const _: () = prove!(size_of::<Link>() == 8);

impl Model for Link {
    ghost use Rattle.std.specs.Prelude.{ℕ, Option};
    ghost use Rattle.std.proofs.Common.{ap};
    ghost use Rattle.event_wheel.specs.Link.{key_of, number_of, number_of-key_of};

    ghost Value = { Option ℕ };

    ghost view = { λ l. key_of l.key };

    ghost inverse = { λ o. record { key = number_of o } };

    ghost inverse_ok = { λ l h. ap (λ k. record { key = k }) (number_of-key_of l.key) };
}

impl Link {
    /// No key.
    pub fn none() -> Link
        ensures { result ≡ None }
    {
        Link { key: usize::MAX }
    }

    /// The link to a key.
    pub fn to(key: usize) -> Link
        requires { key < 2 ^ 64 - 1 }
        ensures { result ≡ Some key }
    {
        Link { key }
    }

    /// Its key, if it has one.
    pub fn key(self) -> Option<usize>
        ensures { result ≡ self }
    {
        if self.key == usize::MAX {
            None
        } else {
            Some(self.key)
        }
    }

    /// Whether it has no key.
    pub fn is_none(self) -> bool
        ensures { is_some self ≡ not result }
    {
        self.key().is_none()
    }

    /// This link, or the other one where this has no key.
    pub fn or(self, other: Link) -> Link
        ensures { result ≡ option_or self other }
    {
        if self.is_none() { other } else { self }
    }
}
