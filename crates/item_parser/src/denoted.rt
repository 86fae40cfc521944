//! The file that tokens denote.

ghost use Rattle.std.specs.Prelude.{◌≡◌, List, IfOk, IfErr};
ghost use Rattle.tokens.specs.declared.token.Token.{Token};
ghost use Rattle.syntax_tree.specs.FileData.{ModuleData};
ghost use Rattle.syntax_tree.specs.MemberSpelling.{file_spelling};
ghost use Rattle.syntax_tree.specs.ProperMembers.{IsProperFile};
ghost use Rattle.item_parser.specs.Denoted.{IsCause};
ghost use Rattle.syntax_tree.specs.DenotedFiles.{IsFileOf};

use crate::module::read_file;
use parser_base::explain::{ParseFault, explain};
use std::alloc::Global;
use syntax_tree::member::File;
use tokens::token::Tokens;

/// Returns the file that the tokens denote: they spell it, and it is proper. Its spec blocks are kept as tokens.
///
/// # Errors
///
/// `Grammar` exactly if the tokens denote no file and hold no marker of a form that is left out; its byte offset, about
/// where reading ended, is a hint that no clause pins. `LeftOut` exactly if they denote none and hold a marker, with
/// the index of the first one. `NoMemory` if memory runs out.
pub fn modules(alloc: Global, tokens: &Tokens) -> Result<File, ParseFault>
    ensures denoted { IfOk result (λ file. IsFileOf file tokens.now) }
    ensures refused { IfErr result (λ fault. IsCause tokens.now fault) }
{
    let slice = tokens.as_slice();
    match read_file(alloc, slice, slice.len() + 1) {
        Ok(file) => Ok(file),
        Err(fault) => Err(explain(slice, fault)),
    }
}

/// Law: tokens denote at most one file.
pub fn one_file()
    ensures { (tokens : List Token) (one other : List ModuleData)
        → IsFileOf one tokens → IsFileOf other tokens → one ≡ other }
{}

/// Law: two proper files with the same spelling are equal.
pub fn one_spelling()
    ensures { (one other : List ModuleData)
        → IsProperFile one → IsProperFile other → file_spelling one ≡ file_spelling other → one ≡ other }
{}
