//! Why tokens were not parsed, by how many were left where reading ended.

use parser_base::explain::{ParseFault, explain};
use parser_base::fault::ReadFault;
use std::alloc::Global;
use std::process::Abort;
use tokens::scanner::tokens;
use tokens::token::Tokens;

fn scan(rt: &impl Abort, alloc: Global, text: &[u8]) -> Tokens {
    assert!(rt; text.len() < 1000);
    match tokens(alloc, 0, text) {
        Ok(found) => found,
        Err(fault) => {
            assert!(rt; false, "{fault:?}");
            Tokens::new(alloc)
        }
    }
}

#[test]
fn spans_where_reading_ended(rt: HostRuntime) {
    let alloc = rt.alloc();
    let found = scan(&rt, alloc, b"a bc d");
    for (left, span) in [(2, 2), (0, 5), (9, 0)] {
        let fault = explain(found.as_slice(), ReadFault::NoTree { left });
        assert_eq!(rt; fault, ParseFault::Grammar(span));
    }
    let fault = explain(&[], ReadFault::NoTree { left: 0 });
    assert_eq!(rt; fault, ParseFault::Grammar(0));
}

#[test]
fn markers_before_the_span_where_reading_ended(rt: HostRuntime) {
    let alloc = rt.alloc();
    let found = scan(&rt, alloc, b"a bc  emits apply");
    let fault = explain(found.as_slice(), ReadFault::NoTree { left: 3 });
    assert_eq!(rt; fault, ParseFault::LeftOut(2));
    let fault = explain(&[], ReadFault::NoMemory);
    assert_eq!(rt; fault, ParseFault::NoMemory);
}
