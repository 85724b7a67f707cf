//! What an RDS encoder keeps: one to eight data sets with the same one to eight programme services each, the texts of
//! each service, and one queue of free-format groups.
//!
//! A store is changed by elements and by whole messages, and answers each with a code. It knows no frames, no counters
//! and no replies. It schedules no groups, but hands them out one by one. `RdsStore` is the store; `Service`,
//! `RadioText` and `Group` are what it lends. All memory is taken by `RdsStore::new`: that the lists have no other room
//! afterwards is in the type's invariant, but for the map that holds the services, and the rest is tested where none is
//! left.
//!
//! The law to rely on: a message is applied whole or not at all, and so is an element that is put alone. Where the code
//! is not 00 nothing has changed; where it is 00 each element was put in order, and each place that one names has its
//! content, and no other place has changed (`laws`).
#![tactic(auto)]

mod data_sets;
mod element_effect;
mod fault;
mod group;
mod in_sets;
pub mod laws;
mod named_sets;
mod opening_store;
mod rules;
mod service;
mod store;
mod text;
mod verdict;

pub use fault::StoreFault;
pub use group::Group;
pub use service::Service;
pub use store::RdsStore;
pub use text::RadioText;
