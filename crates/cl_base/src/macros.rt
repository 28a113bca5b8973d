//! Macros (N1570 6.10.3).

use crate::duplicate::Duplicate;
use crate::list::List;
use crate::memory::Mem;
use crate::name::Name;
use crate::token::{Kind, Span};
use std::alloc::Global;

/// A token of a replacement list. `space` says that white space stands directly before it.
#[derive(Drop)]
pub struct BodyToken {
    pub kind: Kind,
    pub text: Name,
    pub space: bool,
}

/// A macro. An object-like one has no `params`. `params` are the named parameters, and `variadic` says that `...`
/// follows them. `place` is where the name is written in its definition, and there is none for a macro of the start.
#[derive(Drop)]
pub struct Macro {
    pub name: Name,
    pub params: Option<List<Name>>,
    pub variadic: bool,
    pub body: List<BodyToken>,
    pub place: Option<Span>,
}

/// The number of a macro event, from 0.
#[derive(Clone, Copy)]
pub struct MacroNo(pub u32);

/// A macro event: from here on the name has this macro, or none. A definition that is the same as the one before it is no
/// event.
#[derive(Drop)]
pub struct MacroEvent {
    pub name: Name,
    pub set: Option<Macro>,
}

/// What a text stands on that nothing goes before: it gives no name a meaning.
#[derive(Clone, Copy)]
pub struct EmptyBase;

impl Duplicate for BodyToken {
    fn duplicate(&self, alloc: Global) -> Mem<BodyToken> {
        let text = self.text.duplicate(alloc)?;
        Ok(BodyToken {
            kind: self.kind,
            text,
            space: self.space,
        })
    }
}

impl Duplicate for Macro {
    fn duplicate(&self, alloc: Global) -> Mem<Macro> {
        let name = self.name.duplicate(alloc)?;
        let params = match &self.params {
            Some(params) => Some(params.duplicate(alloc)?),
            None => None,
        };
        let body = self.body.duplicate(alloc)?;
        Ok(Macro {
            name,
            params,
            variadic: self.variadic,
            body,
            place: self.place,
        })
    }
}
