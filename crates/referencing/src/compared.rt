//! Resolvers compared, and resolvers and builders printed.

ghost use Rattle.std.specs.Prelude.{◌≡◌};
ghost use Rattle.referencing.specs.Compared.{position_of, positions_eq, positions_eq_per, positions_eq_equiv};

use crate::builder::RegistryBuilder;
use crate::resolver::Resolver;
use std::fmt;

/// Resolvers are equal where they have the same base and the same scope, whatever their registries.
impl<'r> PartialEq for Resolver<'r> {
    ghost use Rattle.std.specs.Cmp.{on_per};

    ghost eq = { λ a b. positions_eq (position_of a) (position_of b) };

    ghost laws = { on_per position_of positions_eq_per };

    fn eq(&self, other: &Resolver<'r>) -> bool
        ensures value { result ≡ positions_eq (position_of self.now) (position_of other.now) }
    {
        self.base == other.base && self.scope == other.scope
    }
}

impl<'r> Eq for Resolver<'r> {
    ghost use Rattle.std.specs.Cmp.{on_equiv};

    ghost laws = { on_equiv position_of positions_eq_equiv };
}

/// The base and the scope.
impl<'r> fmt::Debug for Resolver<'r> {
    fn fmt<W: fmt::Write>(&self, f: &mut fmt::Formatter<W>) -> fmt::Result {
        write!(
            f,
            "Resolver {{ base: {:?}, scope: {:?} }}",
            self.base, self.scope
        )
    }
}

/// The settings, and how many documents were added to those of the parent.
impl<'a, R: fmt::Debug> fmt::Debug for RegistryBuilder<'a, R> {
    fn fmt<W: fmt::Write>(&self, f: &mut fmt::Formatter<W>) -> fmt::Result {
        write!(
            f,
            "RegistryBuilder {{ draft: {:?}, siblings: {}, documents: {}, retriever: {:?}, limit: {} }}",
            self.draft,
            self.siblings,
            self.list.documents().len(),
            self.retriever,
            self.limit
        )
    }
}
