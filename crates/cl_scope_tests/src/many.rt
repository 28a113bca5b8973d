//! Many look-ups over many names and scopes.

use crate::declaring::declare;
use cl_base::{EmptyBase, Mem, Name};
use cl_scope::{Scopes, nothing_is_sound};
use cl_types::{DeclKind, DeclNo, Linkage, ScopeKind, Space};
use std::alloc::Global;
use std::test::Fail;

/// Declares so many names in the innermost scope.
fn declare_names(alloc: Global, scopes: &mut Scopes<'_, EmptyBase>, count: u32) -> Mem<()> {
    for i in 0..count {
        let bytes = i.to_be_bytes();
        declare(alloc, scopes, DeclKind::Object, &bytes, Linkage::Without)?;
    }
    Ok(())
}

/// How many of so many look-ups find a declaration.
fn found_of(alloc: Global, scopes: &Scopes<'_, EmptyBase>, count: u32, names: u32) -> Mem<u32> {
    let mut found: u32 = 0;
    for i in 0..count {
        let name = Name::new(alloc, &(i % names.max(1)).to_be_bytes())?;
        if scopes.look(alloc, Space::Ordinary, &name)?.is_some() {
            found = found.wrapping_add(1);
        }
    }
    Ok(found)
}

#[test]
fn many_look_ups(rt: HostRuntime) -> Result<(), Fail> {
    let alloc = rt.alloc();
    let base = EmptyBase;
    nothing_is_sound();
    let mut scopes = Scopes::new(alloc, &base);
    declare_names(alloc, &mut scopes, 2000)?;
    for _depth in 0..100 {
        scopes.enter(ScopeKind::Block, None)?;
        declare_names(alloc, &mut scopes, 20)?;
    }
    assert!(rt; found_of(alloc, &scopes, 20000, 4000)? == 10000);
    Ok(())
}
