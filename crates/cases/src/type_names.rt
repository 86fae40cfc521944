//! How types are printed.

use base::memory::NoMemory;
use base::types::Width;
use std::alloc::Global;
use typing_rules::sort::Wrap;
use typing_rules::type_pool::{PlainType, PoolType, TypePool};

/// A piece of what is printed of a type: a text, or a type by its number.
#[derive(Clone, Copy)]
enum Piece {
    Text(&'static str),
    Type(usize),
}

fn plain_word(of: PlainType) -> &'static str {
    match of {
        PlainType::Bool => "bool",
        PlainType::Int(Width::U8) => "u8",
        PlainType::Int(Width::U16) => "u16",
        PlainType::Int(Width::U32) => "u32",
        PlainType::Int(Width::U64) => "u64",
        PlainType::Int(Width::U128) => "u128",
        PlainType::Num => "num",
        PlainType::Address => "address",
        PlainType::Signer => "signer",
        PlainType::Param(0) => "T0",
        PlainType::Param(1) => "T1",
        PlainType::Param(_) => "T",
    }
}

/// Puts the pieces of a list of types onto the stack, the first one on top.
fn push_parts(parts: &[usize], stack: &mut Vec<Piece>) -> Result<(), NoMemory> {
    for part in parts.iter().rev() {
        stack.push(Piece::Text(","))?;
        stack.push(Piece::Type(*part))?;
    }
    Ok(())
}

/// Puts the pieces of a type onto the stack, the first one on top.
fn push_pieces(pool: &TypePool, number: usize, stack: &mut Vec<Piece>) -> Result<(), NoMemory> {
    if number >= pool.len() {
        return Ok(());
    }
    match pool.entry(number) {
        PoolType::Plain(of) => stack.push(Piece::Text(plain_word(*of)))?,
        PoolType::Made(wrap, part) => {
            let word = match wrap {
                Wrap::Vector => "vector ",
                Wrap::Shared => "&",
                Wrap::Mutable => "&mut ",
            };
            stack.push(Piece::Type(*part))?;
            stack.push(Piece::Text(word))?;
        }
        PoolType::Struct(_, parts) => {
            stack.push(Piece::Text(">"))?;
            push_parts(parts.as_slice(), stack)?;
            stack.push(Piece::Text("struct<"))?;
        }
        PoolType::Tuple(parts) => {
            stack.push(Piece::Text(")"))?;
            push_parts(parts.as_slice(), stack)?;
            stack.push(Piece::Text("("))?;
        }
    }
    Ok(())
}

/// Puts a type at the end of a line, in no more than a hundred pieces.
pub fn push_type(
    alloc: Global,
    line: &mut String,
    pool: &TypePool,
    number: usize,
) -> Result<(), NoMemory> {
    let mut stack = Vec::new(alloc);
    stack.push(Piece::Type(number))?;
    for _ in 0..100 {
        match stack.pop() {
            Some(Piece::Text(text)) => line.push_str(text)?,
            Some(Piece::Type(number)) => push_pieces(pool, number, &mut stack)?,
            None => return Ok(()),
        }
    }
    Ok(())
}
