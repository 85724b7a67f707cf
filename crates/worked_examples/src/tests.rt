mod asserting;
mod elements;
mod encoder;
mod faults;
mod frame;
mod making;
mod ring;
mod store;
