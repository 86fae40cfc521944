//! Laws of certificates, each the contract of a function that does nothing.

ghost use Rattle.std.specs.Prelude.{◌≡◌, ℕ, ◌+◌, List};
ghost use Rattle.certificates.specs.CertData.{MoveData};
ghost use Rattle.certificates.specs.Trees.{AcceptedAreTrees};
ghost use Rattle.certificates.specs.Lengths.{capped, moves_length, IsLengthOf};

/// The moves of each accepted certificate are those of a tree, so `cert_len` returns its length.
pub fn accepted_are_trees()
    ensures { AcceptedAreTrees }
{}

/// The length of a certificate is the sum of the lengths of its moves plus one.
pub fn lengths_of_moves()
    ensures { (moves : List MoveData) (n : ℕ) → n ≡ capped (1 + moves_length moves) → IsLengthOf moves n }
{}
