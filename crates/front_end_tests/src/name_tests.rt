//! Scopes, visibility and named addresses.

use base::name::Name;
use program::declaration::Visibility;
use program::program::ModuleId;
use scopes::addresses::Addresses;
use scopes::scope::{InScope, Scope};
use scopes::visibility::may_call;
use std::alloc::Global;
use std::panic::Expect;
use std::process::Abort;
use std::test::Fail;

fn name(rt: &impl Abort, alloc: Global, text: &[u8]) -> Name {
    Name::from_slice(alloc, text).expect(rt, "memory")
}

fn enter(rt: &impl Abort, alloc: Global, scope: &mut Scope, text: &[u8], number: usize) {
    let name = name(rt, alloc, text);
    scope.enter(InScope { name, number }).expect(rt, "memory");
}

#[test]
fn the_innermost_name_is_found(rt: HostRuntime) -> Result<(), Fail> {
    let alloc = rt.alloc();
    let mut scope = Scope::new(alloc);
    enter(&rt, alloc, &mut scope, b"x", 0);
    enter(&rt, alloc, &mut scope, b"y", 1);
    enter(&rt, alloc, &mut scope, b"x", 2);
    assert_eq!(&rt; scope.find(&name(&rt, alloc, b"x")), Some(2));
    assert_eq!(&rt; scope.find(&name(&rt, alloc, b"y")), Some(1));
    assert_eq!(&rt; scope.find(&name(&rt, alloc, b"z")), None);
    if scope.len() == 3 {
        scope.leave(2);
    }
    assert_eq!(&rt; scope.find(&name(&rt, alloc, b"x")), Some(0));
    Ok(())
}

fn module(rt: &impl Abort, alloc: Global, address: u128, text: &[u8]) -> ModuleId {
    ModuleId {
        address,
        name: name(rt, alloc, text),
    }
}

#[test]
fn functions_are_called_where_they_are_visible(rt: HostRuntime) -> Result<(), Fail> {
    let alloc = rt.alloc();
    let owner = module(&rt, alloc, 1, b"m");
    let other = module(&rt, alloc, 2, b"m");
    let friends = [module(&rt, alloc, 2, b"m")];
    let none = &friends.as_slice()[..0];
    let friends = friends.as_slice();
    assert!(&rt; may_call(&owner, &owner, Visibility::Private, none));
    assert!(&rt; !may_call(&other, &owner, Visibility::Private, friends));
    assert!(&rt; may_call(&other, &owner, Visibility::Friend, friends));
    assert!(&rt; !may_call(&other, &owner, Visibility::Friend, none));
    assert!(&rt; may_call(&other, &owner, Visibility::Public, none));
    Ok(())
}

#[test]
fn std_is_one(rt: HostRuntime) -> Result<(), Fail> {
    let alloc = rt.alloc();
    let mut addresses = Addresses::standard(alloc).expect(&rt, "memory");
    assert_eq!(&rt; addresses.get(&name(&rt, alloc, b"std")), Some(1));
    assert_eq!(&rt; addresses.get(&name(&rt, alloc, b"demo")), None);
    addresses
        .define(name(&rt, alloc, b"demo"), 66)
        .expect(&rt, "memory");
    assert_eq!(&rt; addresses.get(&name(&rt, alloc, b"demo")), Some(66));
    Ok(())
}
