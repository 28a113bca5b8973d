//! What has been declared at a place, as the parser holds it.

ghost use Rattle.std.specs.Prelude.{◌≡◌, ◌<◌, ◌^◌, IfOk, MatchOption, length};
ghost use Rattle.cl_tree.specs.Scopes as s;

use crate::scope::{Change, Scope};
use cl_base::Mem;
use std::alloc::Global;
use std::marker::Model;
use std::sync::Arc;

/// What has been declared at a place. A copy costs one count, and takes no memory where nothing is declared.
#[derive(Drop)]
pub struct SharedScope {
    scope: Option<Arc<Scope, Global>>,
}

impl Model for SharedScope {
    ghost use Rattle.std.specs.Prelude.{None, Some};
    ghost use Rattle.cl_tree.specs.Scopes.{empty};
    ghost use Rattle.cl_tree.specs.declared.scope.Scope.{Scope};

    ghost Value = { Scope };

    ghost view = { λ it. elim it.scope [ None ↦ empty | Some scope ↦ scope.value ] };
}

impl SharedScope {
    /// Nothing is declared yet.
    pub fn new() -> SharedScope
        ensures { result ≡ s.empty }
    {
        SharedScope { scope: None }
    }

    /// The same, with one more owner.
    pub fn share(&self) -> Mem<SharedScope>
        ensures { IfOk result (λ copy. copy ≡ self.now) }
    {
        let Some(scope) = &self.scope else {
            return Ok(SharedScope::new());
        };
        let scope = scope.clone()?;
        Ok(SharedScope { scope: Some(scope) })
    }

    /// The value, where something is declared.
    pub fn get(&self) -> Option<&Scope>
        ensures { MatchOption result (self.now ≡ s.empty) (λ scope. scope.now ≡ self.now) }
    {
        match &self.scope {
            Some(scope) => Some(scope),
            None => None,
        }
    }

    /// The declarations that change what a name is, in order.
    pub fn changes(&self) -> &[Change]
        ensures value { result.now ≡ self.now.changes }
        ensures room { length result.now < 2 ^ 32 }
    {
        match &self.scope {
            Some(scope) => scope.changes.as_slice(),
            None => &[],
        }
    }

    /// The value, to be changed: itself where it has no other owner, else a copy.
    pub(crate) fn into_scope(self) -> Mem<Scope>
        ensures { IfOk result (λ scope. scope ≡ self) }
    {
        let Some(scope) = self.scope else {
            return Ok(Scope::new());
        };
        match Arc::try_unwrap(scope) {
            Ok(scope) => Ok(scope),
            Err(scope) => scope.share(),
        }
    }

    /// A value that has no other owner.
    pub(crate) fn of(alloc: Global, scope: Scope) -> Mem<SharedScope>
        ensures { IfOk result (λ it. it ≡ scope) }
    {
        let scope = Arc::new(alloc, scope)?;
        Ok(SharedScope { scope: Some(scope) })
    }
}
