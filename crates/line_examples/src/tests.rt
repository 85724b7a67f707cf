mod asserting;
mod faults;
mod joining;
mod line;
mod saved_encoder;
mod saved_server;
mod sockets;
