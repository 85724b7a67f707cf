//! Both ends of the line for C, kept by handles: a deframer, an encoder with its store, a server with its window.

mod addresses;
mod any;
mod deframers;
mod encoders;
mod groups;
mod servers;
mod stores;
