//! A store in words: the lines of phrases which, made into messages and applied by an encoder with the same sets and
//! services, give that store (profile).
//!
//! [`put_store`] adds the lines of a store. The law to rely on: each line says one element, and an encoder that has the
//! same sets and services, whatever else it holds, takes each of them and then holds that store; only where no group
//! waits in the store do those of the encoder stay.
#![tactic(auto)]

mod element_line;
mod form;
mod groups;
pub mod laws;
mod services;
mod store;

pub use form::ElementForm;
pub use store::{put_elements, put_store};
