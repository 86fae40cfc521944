//! Spec blocks that are read for another owner than theirs.

use item_parser::spec::denoted_block::spec_block;
use parser_base::explain::ParseFault;
use std::alloc::Global;
use std::process::Abort;
use syntax_tree::slot::Slot;
use tokens::scanner::tokens;
use tokens::token::Tokens;

fn scan(rt: &impl Abort, alloc: Global, text: &[u8]) -> Tokens {
    assert!(rt; text.len() < 1000);
    match tokens(alloc, 0, text) {
        Ok(found) => found,
        Err(fault) => {
            assert!(rt; false, "{fault:?}");
            Tokens::new(alloc)
        }
    }
}

#[test]
fn a_block_of_another_owner_is_none(rt: HostRuntime) {
    let alloc = rt.alloc();
    let of_module = scan(&rt, alloc, b"spec module {}");
    match spec_block(alloc, &of_module, Slot::Function) {
        Ok(_) => assert!(rt; false, "a block of a function"),
        Err(fault) => assert_eq!(rt; fault, ParseFault::Grammar(5)),
    }
    let of_function = scan(&rt, alloc, b"spec F { pragma verify = true; }");
    assert!(rt; spec_block(alloc, &of_function, Slot::Module).is_err());
    assert!(rt; spec_block(alloc, &of_function, Slot::Function).is_ok());
}
