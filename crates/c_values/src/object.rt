//! What a handle may have. Source: profile.
use rds_store::RdsStore;
use uecp_encoder::Encoder;
use uecp_frame::Deframer;
use uecp_link::Server;

/// An object of one of three kinds.
#[derive(Drop)]
pub enum Object {
    /// Finds the frames of a stream.
    Deframer(Deframer),
    /// An encoder's end of the line, over its store.
    Encoder(Encoder<RdsStore>),
    /// A server's end of the line.
    Server(Server),
}
