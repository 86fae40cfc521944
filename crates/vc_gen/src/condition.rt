//! Verification conditions.

use base::condition::ConditionKey;
use fol::formula::Formula;

/// A formula that states something about each run of a function.
#[derive(Drop)]
pub struct VerificationCondition {
    pub key: ConditionKey,
    pub formula: Formula,
}
