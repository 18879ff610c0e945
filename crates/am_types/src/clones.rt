//! The clones of plain values: each is equal to the value that it is a clone of.
ghost use Rattle.std.specs.Prelude.{◌≡◌};

use crate::{
    Aim, Answer, Authority, Component, Decl, Entry, Extra, Filter, Hit, Intent, Mime, Named,
    Ordered, Outcome, Package, PathRule, Spot, Uri, UriParts, copy_parts, copy_variants,
};
use std::alloc::AllocError;

impl Clone for Outcome {
    ghost is_clone = { λ x y. y ≡ x };

    fn clone(&self) -> Result<Outcome, AllocError> {
        copy_parts!(self, Outcome: option(text) list(extras); code)
    }
}

impl Clone for Ordered {
    ghost is_clone = { λ x y. y ≡ x };

    fn clone(&self) -> Result<Ordered, AllocError> {
        copy_parts!(self, Ordered: value(initial); wanted)
    }
}

impl Clone for Answer {
    ghost is_clone = { λ x y. y ≡ x };

    fn clone(&self) -> Result<Answer, AllocError> {
        copy_parts!(self, Answer: option(set); abort)
    }
}

impl Clone for Aim {
    ghost is_clone = { λ x y. y ≡ x };

    fn clone(&self) -> Result<Aim, AllocError> {
        copy_variants!(self, Aim: value(Declared); Registered)
    }
}

impl Clone for Spot {
    ghost is_clone = { λ x y. y ≡ x };

    fn clone(&self) -> Result<Spot, AllocError> {
        copy_parts!(self, Spot: value(aim); uid)
    }
}

impl Clone for Package {
    ghost is_clone = { λ x y. y ≡ x };

    fn clone(&self) -> Result<Package, AllocError> {
        copy_parts!(self, Package: value(name key) list(decls); uid stopped)
    }
}

impl Clone for Authority {
    ghost is_clone = { λ x y. y ≡ x };

    fn clone(&self) -> Result<Authority, AllocError> {
        copy_parts!(self, Authority: value(host); port)
    }
}

impl Clone for PathRule {
    ghost is_clone = { λ x y. y ≡ x };

    fn clone(&self) -> Result<PathRule, AllocError> {
        copy_variants!(self, PathRule: value(Literal Prefix Suffix Pattern))
    }
}

impl Clone for Filter {
    ghost is_clone = { λ x y. y ≡ x };

    fn clone(&self) -> Result<Filter, AllocError> {
        copy_parts!(self, Filter: list(actions categories schemes authorities paths types); priority)
    }
}

impl Clone for Entry {
    ghost is_clone = { λ x y. y ≡ x };

    fn clone(&self) -> Result<Entry, AllocError> {
        copy_parts!(self, Entry: value(request); desk uid now weight kept)
    }
}

impl Clone for Component {
    ghost is_clone = { λ x y. y ≡ x };

    fn clone(&self) -> Result<Component, AllocError> {
        copy_parts!(self, Component: value(package class))
    }
}

impl Clone for Extra {
    ghost is_clone = { λ x y. y ≡ x };

    fn clone(&self) -> Result<Extra, AllocError> {
        copy_variants!(self, Extra: value(Word); Whole Truth)
    }
}

impl Clone for Named {
    ghost is_clone = { λ x y. y ≡ x };

    fn clone(&self) -> Result<Named, AllocError> {
        copy_parts!(self, Named: value(key value))
    }
}

impl Clone for Intent {
    ghost is_clone = { λ x y. y ≡ x };

    fn clone(&self) -> Result<Intent, AllocError> {
        copy_parts!(self, Intent: option(action uri mime identifier package component) list(categories extras); flags)
    }
}

impl Clone for Decl {
    ghost is_clone = { λ x y. y ≡ x };

    fn clone(&self) -> Result<Decl, AllocError> {
        copy_parts!(self, Decl: value(class affinity) option(permission) list(filters); kind exported enabled mode)
    }
}

impl Clone for Hit {
    ghost is_clone = { λ x y. y ≡ x };

    fn clone(&self) -> Result<Hit, AllocError> {
        copy_parts!(self, Hit: value(component); uid place priority)
    }
}

impl Clone for Uri {
    ghost is_clone = { λ x y. y ≡ x };

    fn clone(&self) -> Result<Uri, AllocError> {
        copy_parts!(self, Uri: value(text scheme profile phone))
    }
}

impl Clone for UriParts {
    ghost is_clone = { λ x y. y ≡ x };

    fn clone(&self) -> Result<UriParts, AllocError> {
        copy_parts!(self, UriParts: option(host) value(path); port)
    }
}

impl Clone for Mime {
    ghost is_clone = { λ x y. y ≡ x };

    fn clone(&self) -> Result<Mime, AllocError> {
        copy_parts!(self, Mime: value(main sub))
    }
}
