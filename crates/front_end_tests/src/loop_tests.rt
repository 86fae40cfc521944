//! Names around the clauses of loops.

use base::name::Name;
use base::types::{TypeNode, TypeTerm};
use program::spec::SpecName;
use resolution::clauses::around::around_loop;
use scopes::scope::InScope;
use std::panic::Expect;
use std::test::Fail;

/// A loop's clauses see the locals that are in scope, the innermost of one name, and else the results.
#[test]
fn names_around_loops(rt: HostRuntime) -> Result<(), Fail> {
    let alloc = rt.alloc();
    let mut locals = Vec::new(alloc);
    for (number, word) in ["x", "i", "x"].iter().enumerate() {
        let name = Name::from_slice(alloc, word.as_bytes()).expect(&rt, "memory");
        locals.push(InScope { name, number }).expect(&rt, "memory");
    }
    let result_type = TypeTerm {
        node: TypeNode::Bool,
    };
    let outer = around_loop(alloc, &result_type, locals.as_slice()).expect(&rt, "memory");
    for (word, wanted) in [
        ("x", Some(SpecName::Local(2))),
        ("i", Some(SpecName::Local(1))),
        ("result", Some(SpecName::Result(0))),
        ("result_1", None),
    ] {
        let name = Name::from_slice(alloc, word.as_bytes()).expect(&rt, "memory");
        assert!(&rt; outer.find(&name) == wanted);
    }
    Ok(())
}
