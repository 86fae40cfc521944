//! The links that joined the classes of numbers.

use congruence_closure::classes::Classes;
use congruence_closure::proof_forest::{History, Join};
use fol::operators::Unary;
use std::panic::Expect;
use std::process::Abort;
use std::test::Fail;
use term_pool::node::{Leaf, Node, One};

// Whether two numbers that there are are of one class.
fn are_joined(rt: &impl Abort, classes: &Classes, left: usize, right: usize) -> bool {
    assert!(rt; left < classes.len());
    assert!(rt; right < classes.len());
    classes.are_joined(left, right)
}

#[test]
fn each_pair_is_joined_by_one_link(rt: HostRuntime) -> Result<(), Fail> {
    let alloc = rt.alloc();
    let mut classes = Classes::new(alloc);
    for number in 0..6u32 {
        classes = classes
            .with_node(Node::Leaf(Leaf::Var(number)))
            .expect(&rt, "memory");
    }
    for (left, right) in [(0, 1), (2, 3), (1, 3), (4, 5)] {
        if left < classes.len() && right < classes.len() {
            classes = classes.with_equation(left, right).expect(&rt, "memory");
        }
    }
    let history = History::of(alloc, &classes).expect(&rt, "memory");
    let rows = [
        (
            0,
            1,
            Some(Join {
                link: 0,
                near: 0,
                far: 1,
            }),
        ),
        (
            1,
            0,
            Some(Join {
                link: 0,
                near: 1,
                far: 0,
            }),
        ),
        (
            3,
            2,
            Some(Join {
                link: 1,
                near: 3,
                far: 2,
            }),
        ),
        (
            0,
            2,
            Some(Join {
                link: 2,
                near: 1,
                far: 3,
            }),
        ),
        (
            3,
            0,
            Some(Join {
                link: 2,
                near: 3,
                far: 1,
            }),
        ),
        (
            5,
            4,
            Some(Join {
                link: 3,
                near: 5,
                far: 4,
            }),
        ),
        (0, 4, None),
        (9, 3, None),
    ];
    for (left, right, expected) in rows {
        if left != right {
            assert_eq!(rt; history.join(classes.links(), left, right), expected);
        }
    }
    Ok(())
}

#[test]
fn like_nodes_are_joined_by_links_of_their_parts(rt: HostRuntime) -> Result<(), Fail> {
    let alloc = rt.alloc();
    let mut classes = Classes::new(alloc);
    for number in 0..2u32 {
        classes = classes
            .with_node(Node::Leaf(Leaf::Var(number)))
            .expect(&rt, "memory");
    }
    for part in 0..2 {
        if part < classes.len() {
            classes = classes
                .with_node(Node::One(One::Unary(Unary::Len), part))
                .expect(&rt, "memory");
        }
    }
    for (left, right) in [(0, 1), (2, 3), (0, 2)] {
        assert!(rt;
            !are_joined(&rt, &classes, left, right),
            "at {left}, {right}"
        );
    }
    assert_eq!(rt; classes.len(), 4);
    let classes = classes.with_equation(0, 1).expect(&rt, "memory");
    for (left, right, is_one) in [(0, 1, true), (2, 3, true), (0, 2, false), (1, 3, false)] {
        assert_eq!(rt;
            are_joined(&rt, &classes, left, right),
            is_one,
            "at {left}, {right}"
        );
    }
    assert_eq!(rt; classes.links().len(), 2);
    let history = History::of(alloc, &classes).expect(&rt, "memory");
    // The equation joins its sides, and then what is made of them is joined.
    for (left, right, link) in [(0, 1, 0), (1, 0, 0), (2, 3, 1), (3, 2, 1)] {
        if left != right {
            let join = history
                .join(classes.links(), left, right)
                .expect(&rt, "joined");
            assert_eq!(rt; (join.link, join.near, join.far), (link, left, right));
        }
    }
    Ok(())
}
