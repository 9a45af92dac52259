// Modules 6 to 8: the questions about a node and a state, over the state's words. Each module says which part it is. What the questions share
// goes by slots of a sound state and is not public.
#![tactic(auto)]

mod filters;
pub mod iterators;
mod links;
mod lists;
pub mod node;
mod node_asked;
mod own;
mod plain;
mod shown;
mod steps;
pub mod walk;

pub use filters::filter;
