//! The laws of these crates can be called.

use cl_base::found_back;
use cl_define::{one_definition, some_definition};
use cl_diag::{one_order, some_order};
use cl_lex::{one_lexing, some_lexing};
use cl_macro::{one_start, some_start};
use cl_pp::{
    first_needed, groups_change_nothing, one_branch, one_preprocessing, resumed, some_preprocessing,
};
use std::test::Fail;

#[test]
fn laws(_rt: HostRuntime) -> Result<(), Fail> {
    found_back();
    one_lexing();
    some_lexing();
    one_definition();
    some_definition();
    one_start();
    some_start();
    one_branch();
    groups_change_nothing();
    one_preprocessing();
    some_preprocessing();
    resumed();
    first_needed();
    one_order();
    some_order();
    Ok(())
}
