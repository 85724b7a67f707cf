//! What may happen on a line, and at its encoder. Source: profile.
use uecp_frame::Message;

/// One end of the line.
#[derive(Clone, Copy, Debug, PartialEq, Eq)]
pub enum Side {
    /// The transmitter's encoder.
    Encoder,
    /// The studio's server.
    Server,
}

/// What happens on a line. That bytes are lost is an event that does not come.
///
/// Numbers of messages count from 0. A `cut` lists the lengths of the pieces in which the bytes come, in order; what is
/// left is the last piece, and a length past the end is cut to it.
#[derive(Clone, Copy, Debug)]
pub enum LineEvent<'a> {
    /// The studio gives the server the next message.
    Submit(&'a Message),
    /// The frame of that message comes to the encoder, for the first time or again.
    Frame {
        /// The number of the message, from 0.
        number: usize,
        /// The lengths of the pieces, in order.
        cut: &'a [u16],
    },
    /// The encoder's reply to that message comes to the server, for the first time or again.
    Reply {
        /// The number of the message, from 0.
        number: usize,
        /// The lengths of the pieces, in order.
        cut: &'a [u16],
    },
    /// These bytes come to the encoder.
    NoiseToEncoder(&'a [u8]),
    /// These bytes come to the server.
    NoiseToServer(&'a [u8]),
    /// That end alone forgets a segment that has not ended.
    LineLost(Side),
    /// The encoder starts again, and goes on from what it kept: its target and its replies, while what was open is
    /// forgotten and its counts are new. How that is kept is not the line's matter. It is never refused.
    EncoderRestart,
    /// The server starts again, and goes on from what it kept: its last counter and the messages that it holds, while
    /// what was open is forgotten and its counts are new. How that is kept is not the line's matter. It is never
    /// refused. Where a server knows nothing any more and joins, that is no event: see
    /// [`Line::replace_server`](crate::Line::replace_server).
    ServerRestart,
    /// The modulator takes from the encoder the group that is to go out next. It is never refused.
    Take,
}
