// The prototype table, its refusals, the roles of words and the bindings of upvalues, after luad's roles.rs and the end of `load_proto_51`.
#![tactic(auto)]

mod bindings;
mod buffers;
pub mod calls;
mod discovery;
mod fill;
pub mod refusals;
pub mod role;
mod search;
pub mod table;
