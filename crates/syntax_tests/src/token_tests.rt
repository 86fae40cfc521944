//! Limits of tokens, and how faults are printed.

use std::alloc::Global;
use std::process::Abort;
use std::test::Fail;
use tokens::scanner::tokens;
use tokens::token::TokenFault;
use tokens::weight::weight;

fn fails(rt: &impl Abort, alloc: Global, text: &[u8], fault: TokenFault) {
    assert!(rt; text.len() < 1_000_000);
    match tokens(alloc, 7, text) {
        Ok(found) => assert!(rt; false, "{} tokens", found.len()),
        Err(other) => assert_eq!(rt; other, fault),
    }
}

fn weighs(rt: &impl Abort, alloc: Global, text: &[u8], expected: u32) {
    assert!(rt; text.len() < 1000);
    match tokens(alloc, 7, text) {
        Ok(found) => assert_eq!(rt; weight(&found), expected),
        Err(fault) => assert!(rt; false, "{fault:?}"),
    }
}

#[test]
fn tokens_past_the_limit(rt: HostRuntime) -> Result<(), Fail> {
    let alloc = rt.alloc();
    let mut many = vec![in alloc; b';'; 200_001]?;
    fails(&rt, alloc, &many, TokenFault::TooMany(200_001));
    many.push(b'$')?;
    fails(&rt, alloc, &many, TokenFault::BadToken(200_001));
    Ok(())
}

#[test]
fn faults_print(rt: HostRuntime) -> Result<(), Fail> {
    for (fault, text) in [
        (TokenFault::BadToken(3), "bad token at byte 3"),
        (TokenFault::TooMany(200_001), "200001 tokens are too many"),
        (TokenFault::NoMemory, "no memory"),
    ] {
        assert_eq!(rt; format!(in rt.alloc(); "{fault}")?.as_str(), text);
    }
    Ok(())
}

#[test]
fn weights_near_the_limit(rt: HostRuntime) -> Result<(), Fail> {
    let alloc = rt.alloc();
    weighs(&rt, alloc, &vec![in alloc; b'('; 200]?, 200);
    weighs(&rt, alloc, &vec![in alloc; b'('; 201]?, 201);
    weighs(&rt, alloc, &vec![in alloc; b'!'; 250]?, 201);
    Ok(())
}
