//! Instances of schemas.

use base::types::TypeTerm;
use program::program::SchemaId;
use type_constraints::clauses::block::Block;

/// A schema, with the types substituted for its type parameters, in a block of this kind.
#[derive(Drop)]
pub struct Instance {
    pub schema: SchemaId,
    pub types: Vec<TypeTerm>,
    pub block: Block,
}
