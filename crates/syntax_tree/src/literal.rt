//! Literals: numbers, truth values, addresses.

use crate::lexeme::Numeral;
use crate::path::Address;
use base::span::Span;

/// A literal.
pub enum Literal {
    Number(Numeral),
    Truth { span: Span, value: bool },
    /// `@` and an address.
    Address { span: Span, address: Address },
}

// A separate impl, so that each drop is a call and not the cases of all forms below it.
impl Drop for Literal {
    fn drop(self) {
        match self {
            Literal::Number(number) => drop(number),
            Literal::Truth { span: _, value: _ } => {}
            Literal::Address { span: _, address } => drop(address),
        }
    }
}
