//! The first function of a program that uses a field of a struct of another module, or global storage at such a struct
//! or at a type parameter with key, whether the type is written or inferred.

pub mod first;
mod function;
mod known;
mod nodes;
mod owners;
mod storage;
