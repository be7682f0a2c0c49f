//! The streams of those who come by the doors of a service.
ghost use Rattle.std.specs.Prelude.{◌≡◌, ◌+◌, ◌^◌, ◌<◌, None, IfOk, OnOk};
ghost use Rattle.std.specs.Io.KnownBytes.{Appends};
ghost use Rattle.serving.specs.Streams.{failures_after};
ghost use Rattle.s4serve.specs.Doors.{AreAtDoor};

use crate::reaching::SessionOutput;
use crate::service::{Door, Serving};
use door_files::{Fifos, open_session};
use door_lines::SessionName;
use image_keeping::Keeper;
use kept_drive::KeptReceipt;
use s4_types::Role;
use server::Running;
use serving::{Sink, StreamFailed, WriteSink};
use std::alloc::Global;
use std::io::{self, ErrorKind, Write};

/// What the replies of a session are written to, and the role of its door.
#[derive(Drop)]
pub struct ToFifo<W> {
    writer: WriteSink<W>,
    role: Role,
}

impl<W> ToFifo<W> {
    /// The role of its door, which only an opening gives it.
    pub(crate) fn role(&self) -> Role
        ensures { result ≡ self.now.role }
    {
        self.role
    }
}

/// Opens the two streams of a session that was asked for at the door of this number.
pub fn open_at<J: Serving, D: Fifos>(
    fifos: &D,
    alloc: Global,
    doors: &[Door<J>],
    number: usize,
    name: &SessionName,
) -> io::Result<(D::Input, ToFifo<D::Output>)>
    // They are those of that door, and so is the role.
    ensures streams { IfOk result (λ streams. AreAtDoor D.reads D.writes doors.now number name.now
        streams.0 streams.1.writer.writer streams.1.role) }
    ensures failures { IfOk result
        (λ streams. ⟦<WriteSink<D::Output> as Sink>⟧.failures streams.1.writer ≡ 0) }
{
    let Some(door) = doors.get(number) else {
        return Err(io::Error::from(ErrorKind::NotFound));
    };
    let (input, output) = open_session(fifos, alloc, door.folder(), name)?;
    let role = door.role();
    let writer = WriteSink::new(output);
    Ok((input, ToFifo { writer, role }))
}

impl<K: Keeper, W: Write> SessionOutput<K> for ToFifo<W> {
    ghost role = { λ output. output.role };

    // No clause of the standard library says what a FIFO has taken.
    ghost sent = { λ _. None };

    ghost failures = { λ output. ⟦<WriteSink<W> as Sink>⟧.failures output.writer };

    fn send<J: Running>(
        &mut self,
        bytes: &[u8],
        _receipt: &KeptReceipt<J, K>,
    ) -> Result<(), StreamFailed>
        requires failures { ⟦<WriteSink<W> as Sink>⟧.failures self.old.writer + 1 < 2 ^ 64 }
        ensures role { self.new.role ≡ self.old.role }
        ensures failures { ⟦<WriteSink<W> as Sink>⟧.failures self.new.writer
            ≡ failures_after (⟦<WriteSink<W> as Sink>⟧.failures self.old.writer) result }
        // Where what the writer has taken is known, it takes just these.
        ensures written { OnOk result (Appends (⟦<WriteSink<W> as Sink>⟧.passed self.old.writer)
            (⟦<WriteSink<W> as Sink>⟧.passed self.new.writer) bytes.now) }
    {
        self.writer.put(bytes)
    }
}
