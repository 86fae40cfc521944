//! Why code is not made.

use base::memory::NoMemory;

/// Why code is not made. `CodeLimit` has the number of nodes at which this was seen.
#[derive(Drop)]
pub enum CodeFault {
    CodeLimit(u64),
    NoMemory,
}

/// Why a pass gives nothing: by a fault of its own, or for want of memory.
#[derive(Drop)]
pub enum Given<F> {
    Own(F),
    NoMemory,
}

/// Why there is no result of a pass. `CodeLimit` has the number of nodes at which this was seen.
#[derive(Drop)]
pub enum PassFault<F> {
    CodeLimit(u64),
    Own(F),
    NoMemory,
}

impl From<NoMemory> for CodeFault {
    ghost use Rattle.std.specs.Prelude.{◌≡◌};
    ghost use Rattle.code_tree.specs.declared.fault.CodeFault.TheVariants.{NoMemory};

    ghost from_gives = { λ _ fault. fault ≡ NoMemory };

    fn from(_: NoMemory) -> CodeFault {
        CodeFault::NoMemory
    }
}

impl<F: Drop> From<NoMemory> for PassFault<F> {
    ghost use Rattle.std.specs.Prelude.{◌≡◌};
    ghost use Rattle.code_tree.specs.declared.fault.PassFault.TheVariants.{NoMemory};

    ghost from_gives = { λ _ fault. fault ≡ NoMemory };

    fn from(_: NoMemory) -> PassFault<F> {
        PassFault::NoMemory
    }
}

impl<F: Drop> From<Given<F>> for PassFault<F> {
    ghost use Rattle.std.specs.Prelude.{◌≡◌};
    ghost use Rattle.code_tree.specs.Faults.{of_given};

    ghost from_gives = { λ given fault. fault ≡ of_given given };

    fn from(given: Given<F>) -> PassFault<F> {
        match given {
            Given::Own(fault) => PassFault::Own(fault),
            Given::NoMemory => PassFault::NoMemory,
        }
    }
}

impl<F: Drop> From<CodeFault> for PassFault<F> {
    ghost use Rattle.std.specs.Prelude.{◌≡◌};
    ghost use Rattle.code_tree.specs.Faults.{of_code_fault};

    ghost from_gives = { λ given fault. fault ≡ of_code_fault given };

    fn from(given: CodeFault) -> PassFault<F> {
        match given {
            CodeFault::CodeLimit(nodes) => PassFault::CodeLimit(nodes),
            CodeFault::NoMemory => PassFault::NoMemory,
        }
    }
}
