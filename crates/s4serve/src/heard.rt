//! What is said at the doors of a service.
ghost use Rattle.std.specs.Prelude.{◌≡◌, ◌+◌, ◌^◌, ◌<◌, IfOk};
ghost use Rattle.door_files.specs.Paths.{door_path};
ghost use Rattle.door_lines.specs.Reading.{failures_by};
ghost use Rattle.s4serve.specs.Doors.{IsAdministrators, IsDoorAt};
ghost use Rattle.s4serve.specs.Heard.{IsHeard, said_at, stop_at};

use crate::service::{Door, Serving};
use crate::waiting::Line;
use door_files::Fifos;
use door_lines::{DoorEnd, DoorLine, DoorReader, PieceSource};
use s4_types::Role;
use serving::ReadSource;
use std::marker::{Model, PhantomData};

/// What a line at a door asks for.
#[derive(Drop)]
pub enum Said<B> {
    /// A session is asked for.
    Session(Line),
    /// The service is to end, which an administrator asks for.
    Stop(B),
    /// Nothing.
    Nothing,
}

/// What shows that a line said `stop` at an administrator's door of the service that `J` names. It
/// has that door's number. Nothing but the reader of the line makes one.
#[derive(Drop)]
pub struct StopLine<J: Serving> {
    door: usize,
    of: PhantomData<J>,
}

impl<J: Serving> Model for StopLine<J> {
    ghost use Rattle.std.specs.Prelude.{ℕ};
    ghost use Rattle.s4serve.specs.Doors.{IsAdministrators};

    ghost Value = { ℕ };

    ghost view = { λ s. s.door };

    ghost invariant = { λ s. IsAdministrators J.doors s.door };
}

impl<J: Serving> StopLine<J> {
    /// Shows what holds of each.
    pub fn shows(&self)
        ensures { IsAdministrators J.doors self.now }
    {
        let _ = &self.of;
    }
}

/// The lines at a door of a service, and its number.
#[derive(Drop)]
pub struct AtDoor<'a, J: Serving, S> {
    door: &'a Door<J>,
    number: usize,
    source: S,
    reader: DoorReader,
    // It is that door.
    ghost asked: { IsDoorAt J.doors number door.now },
}

/// The lines that come by the input of a door.
pub fn lines_at<'a, J: Serving, D: Fifos>(
    door: &'a Door<J>,
    number: usize,
    input: D::Input,
) -> AtDoor<'a, J, ReadSource<D::Input>>
    requires asked { IsDoorAt J.doors number door.now }
    requires reads { D.reads input (door_path door.now.folder) }
    ensures door { (result.door.now ≡ door.now) × (result.number ≡ number) }
    ensures source { result.source.reader ≡ input }
    ensures failures { ⟦<ReadSource<D::Input> as PieceSource>⟧.failures result.source ≡ 0 }
{
    AtDoor {
        door,
        number,
        source: ReadSource::new(input),
        reader: DoorReader::new(),
    }
}

impl<'a, J: Serving, S: PieceSource> AtDoor<'a, J, S> {
    /// The door.
    pub fn door(&self) -> &'a Door<J>
        ensures { result.now ≡ self.now.door.now }
    {
        self.door
    }

    /// What the next line says. After an error this isn't used again.
    pub fn next(&mut self) -> Result<Said<StopLine<J>>, DoorEnd>
        requires { S.failures self.old.source + 1 < 2 ^ 64 }
        // What the next line of what comes says at this door.
        ensures said { IfOk result (IsHeard self.old.door.now.role self.old.number self.old.reader
            self.new.reader (S.pieces self.old.source) (S.pieces self.new.source)) }
        ensures failures { S.failures self.new.source
            ≡ S.failures self.old.source + failures_by result }
        ensures same { (self.new.door ≡ self.old.door) × (self.new.number ≡ self.old.number) }
    {
        match self.reader.next_line(&mut self.source) {
            Ok(line) => Ok(self.heed(line)),
            Err(end) => Err(end),
        }
    }

    /// What a line says at this door.
    fn heed(&self, line: DoorLine) -> Said<StopLine<J>>
        ensures { result ≡ said_at self.now.door.now.role self.now.number line }
    {
        match line {
            DoorLine::Session(name) => Said::Session(Line {
                door: self.number,
                name,
            }),
            DoorLine::Stop => self.heed_stop(),
            DoorLine::Nothing => Said::Nothing,
        }
    }

    /// What `stop` says there.
    fn heed_stop(&self) -> Said<StopLine<J>>
        ensures { result ≡ stop_at self.now.door.now.role self.now.number }
    {
        match self.door.role() {
            Role::Admin => Said::Stop(StopLine {
                door: self.number,
                of: PhantomData,
            }),
            Role::Client => Said::Nothing,
        }
    }
}
