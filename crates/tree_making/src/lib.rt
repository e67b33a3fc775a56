//! Trees made of their parts, each with the number of levels that it has.
#![tactic(auto)]

mod blocks;
mod expressions;
mod fields;
mod forms;
mod lists;
mod operator;
mod part;
mod statements;

pub use blocks::{block, body, deeper, items, returning};
pub use expressions::{
    call, dotted, function, index, infix, method, paren, string, table, table_argument, unary,
    variable,
};
pub use fields::{item, keyed, named};
pub use forms::{is_call, is_target, name_of};
pub use lists::{more, more_exps, no_exps, no_fields, no_stats, one_arm, one_exp};
pub use operator::Infix;
pub use part::{Found, Items, Params, Range};
pub use statements::{
    arm, assign, bare_stat, call_stat, do_stat, function_stat, generic_for, if_stat, local,
    local_function, numeric_for, repeat_stat, while_stat,
};
