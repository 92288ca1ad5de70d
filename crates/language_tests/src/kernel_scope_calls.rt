//! Names that are declared, and left.

use kernel_scope::{
    declare, declared_count, empty, is_taken, leave, lookup, reserve, visible_count,
};
use kernel_tree::fault::Binding;
use kernel_tree::{Name, Ty};
use std::test::Fail;

#[test]
fn keeps_a_name_once(rt: HostRuntime) -> Result<(), Fail> {
    let alloc = rt.alloc();
    let x = Name::new(alloc, "x")?.expect(&rt, "a name");
    let mut scope = empty(alloc, None);
    assert!(rt; !is_taken(&scope, &x));
    declare(&mut scope, &x, Binding::Value(Ty::U8))?;
    declare(&mut scope, &x, Binding::Value(Ty::I64))?;
    assert!(rt; [declared_count(&scope), visible_count(&scope)] == [1, 2]);
    assert!(rt; lookup(&scope, &x) == Some(Binding::Value(Ty::U8)));
    Ok(())
}

#[test]
fn keeps_names_in_order(rt: HostRuntime) -> Result<(), Fail> {
    let alloc = rt.alloc();
    let later = Name::new(alloc, "z")?.expect(&rt, "a name");
    let early = Name::new(alloc, "a")?.expect(&rt, "a name");
    let mut scope = empty(alloc, None);
    reserve(&mut scope, &later)?;
    declare(&mut scope, &early, Binding::Index)?;
    declare(&mut scope, &later, Binding::Index)?;
    assert!(rt; scope.declared.as_slice() == ["z", "a"].as_slice());
    Ok(())
}

#[test]
fn takes_names_out_of_sight(rt: HostRuntime) -> Result<(), Fail> {
    let alloc = rt.alloc();
    let x = Name::new(alloc, "x")?.expect(&rt, "a name");
    let mut scope = empty(alloc, None);
    declare(&mut scope, &x, Binding::Accumulator(Ty::U32))?;
    leave(&mut scope, 0);
    assert!(rt; lookup(&scope, &x) == None && is_taken(&scope, &x));
    Ok(())
}
