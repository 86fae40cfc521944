//! The Fourier-Motzkin elimination of a branch's rows, and the use of its values.

pub mod elimination;
pub mod values;
