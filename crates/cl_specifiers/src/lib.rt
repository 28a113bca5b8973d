//! Declaration specifiers and declarators: from words and derivations to types.
#![tactic(auto)]

mod base;
mod laws;
mod making;
mod storage;

pub use base::{TypeWord, base_type};
pub use laws::derivations_keep_normal_form;
pub use making::{
    adjusted, array_of, atomic_of, function_of, incomplete, pointer_to, with_qualifiers,
};
pub use storage::{Declared, Flags, StorageWord, Stored, may_stand, storage_of};
