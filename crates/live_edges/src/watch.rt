//! A connection that is looked after while no line comes (profile).

use crate::line::Line;
use crate::notices::NoticeForm;
use std::cell::Cell;
use std::net::TcpStream;

/// The connection that a [`Patient`](crate::Patient) has given out, for a [`Polled`](crate::Polled) that looks after it
/// while it waits for a line; what waits on it, which its two ends note; and in which form it is said what becomes of
/// it. All borrow it, and no contract says what it holds.
#[derive(Drop)]
pub struct Watch {
    state: Cell<Watched>,
    line: Line,
    form: NoticeForm,
}

/// What there is to be looked after.
#[derive(Default, Drop)]
enum Watched {
    /// Nothing.
    #[default]
    Nothing,
    /// A connection, by a handle of its own.
    Open(TcpStream),
    /// A connection that is lost, and that was said.
    Lost,
}

impl Watch {
    /// There is no connection yet. What becomes of one is said in this form.
    pub fn new(form: NoticeForm) -> Watch {
        Watch {
            state: Cell::new(Watched::Nothing),
            line: Line::new(),
            form,
        }
    }

    /// In which form it is said what becomes of a connection.
    pub(crate) fn form(&self) -> NoticeForm {
        self.form
    }

    /// Nobody looks after a connection any more.
    pub fn finish(self) {
        let _watched = self.state.into_inner();
        let _awaited = self.line.finish();
    }

    /// What waits on the connection.
    pub(crate) fn line(&self) -> &Line {
        &self.line
    }

    /// This connection was made. Where there is no handle to be had nobody looks after it.
    pub(crate) fn opened(&self, stream: &TcpStream) {
        self.state.set(match stream.try_clone() {
            Ok(stream) => Watched::Open(stream),
            Err(_) => Watched::Nothing,
        });
    }

    /// The connection is done with.
    pub(crate) fn closed(&self) {
        if let Watched::Lost = self.state.take() {
            self.lose();
        }
    }

    /// The connection that is to be looked after, if there is one; it is given back, or told to be lost.
    pub(crate) fn take(&self) -> Option<TcpStream> {
        match self.state.take() {
            Watched::Nothing => None,
            Watched::Open(stream) => Some(stream),
            Watched::Lost => {
                self.lose();
                None
            }
        }
    }

    /// The connection that was taken is there still.
    pub(crate) fn give_back(&self, stream: TcpStream) {
        self.state.set(Watched::Open(stream));
    }

    /// It was said that the connection is lost.
    pub(crate) fn lose(&self) {
        self.state.set(Watched::Lost);
    }

    /// Whether it was said that the connection is lost; that is asked once.
    pub(crate) fn was_lost(&self) -> bool {
        matches!(self.state.take(), Watched::Lost)
    }
}
