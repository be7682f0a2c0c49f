//! A session with a drive of its own, served over a reader and a writer.
ghost use Rattle.std.specs.Prelude.{◌≡◌, ◌⊎◌, ◌+◌, ◌^◌, ◌<◌, ◌≤◌, IfOk, IfErr, OnErr};
ghost use Rattle.serving.specs.Session.{reading_failures, writing_failures};
ghost use Rattle.s4_types.specs.Sizes.{IsFrameCount};
ghost use Rattle.s4_types.specs.declared.refusals.Refusal.TheVariants.{NoMemory, Busy};
ghost use Rattle.s4_model.specs.State.{new_base};
ghost use Rattle.image_commands.specs.Making.{IsEmptyStore};
ghost use Rattle.s4d.specs.Piping.{Pipes};

use drive::{Drive, NewDrive, Session};
use s4_types::{Moment, Refusal, Reply, Request, Role};
use s4d_command::Pipe;
use segment_word::Naming;
use serving::{Backend, ServeEnd, Sink, Source, Ticking, serve};
use std::alloc::Global;
use std::marker::{Brand, Model};

/// A session with a drive of its own. Contracts see both.
#[derive(Drop)]
pub struct OwnDrive<J: Naming> {
    drive: Drive<J>,
    session: Session<J>,
}

impl<J: Naming> Model for OwnDrive<J> {
    ghost use Rattle.s4d.specs.Piping.{Attended};

    ghost Value = { Attended };

    ghost view = { λ own. record { drive = own.drive; session = own.session } };
}

impl<J: Naming> OwnDrive<J> {
    /// A session of a role with this drive. Busy where no seat is to be had.
    pub fn new(mut drive: Drive<J>, role: Role) -> Result<Self, Refusal>
        ensures drive { IfOk result (λ own. own.drive ≡ drive) }
        ensures role { IfOk result (λ own. own.session.role ≡ role) }
        ensures busy { IfErr result (λ e. e ≡ Busy) }
    {
        let session = drive.session(role)?;
        Ok(OwnDrive { drive, session })
    }
}

impl<J: Naming> Backend for OwnDrive<J> {
    ghost use Rattle.s4d.specs.Piping.{Steps};

    ghost steps = { Steps };

    fn request(&mut self, request: Request, now: Moment) -> Reply {
        self.drive.request(&mut self.session, request, now)
    }
}

/// Serves one session of a new drive, until the input ends or something fails.
///
/// NoMemory or Busy where no drive is to be had: nothing was read or written then.
pub fn serve_pipe<R: Source, W: Sink>(
    alloc: Global,
    pipe: Pipe,
    reader: &mut R,
    writer: &mut W,
) -> Result<ServeEnd, Refusal>
    requires frames { IsFrameCount pipe.frames }
    requires reader { R.failures reader.old + 1 < 2 ^ 64 }
    requires writer { W.failures writer.old + 1 < 2 ^ 64 }
    ensures session { IfOk result (λ end. Pipes pipe end
        (R.remaining reader.old) (W.passed writer.old)
        (R.remaining reader.new) (W.passed writer.new)) }
    ensures reading { IfOk result
        (λ end. R.failures reader.new ≡ R.failures reader.old + reading_failures end) }
    ensures writing { IfOk result
        (λ end. W.failures writer.new ≡ W.failures writer.old + writing_failures end) }
    ensures refused { IfErr result (λ e. (e ≡ NoMemory) ⊎ (e ≡ Busy)) }
    ensures unasked { OnErr result ((reader.new ≡ reader.old) × (writer.new ≡ writer.old)) }
{
    let made = NewDrive::new(alloc, pipe.frames as usize, pipe.window)?;
    serve_named::<Brand, R, W>(alloc, made, pipe, reader, writer)
}

/// The same with a drive that was just made.
fn serve_named<J: Naming, R: Source, W: Sink>(
    alloc: Global,
    made: NewDrive,
    pipe: Pipe,
    reader: &mut R,
    writer: &mut W,
) -> Result<ServeEnd, Refusal>
    requires frames { made.store.table.seat.table ≡ J.frames }
    requires accepts { made.accepts ≡ J.accepts }
    requires base { new_base made.window ≡ J.base }
    requires window { made.window ≡ pipe.window }
    requires store { IsEmptyStore pipe.frames made.store }
    requires reader { R.failures reader.old + 1 < 2 ^ 64 }
    requires writer { W.failures writer.old + 1 < 2 ^ 64 }
    ensures session { IfOk result (λ end. Pipes pipe end
        (R.remaining reader.old) (W.passed writer.old)
        (R.remaining reader.new) (W.passed writer.new)) }
    ensures reading { IfOk result
        (λ end. R.failures reader.new ≡ R.failures reader.old + reading_failures end) }
    ensures writing { IfOk result
        (λ end. W.failures writer.new ≡ W.failures writer.old + writing_failures end) }
    ensures refused { IfErr result (λ e. e ≡ Busy) }
    ensures unasked { OnErr result ((reader.new ≡ reader.old) × (writer.new ≡ writer.old)) }
{
    let mut own = OwnDrive::new(made.named::<J>(), pipe.role)?;
    let mut clock = Ticking::new(Moment::new(0), pipe.tick);
    Ok(serve(alloc, reader, writer, &mut own, &mut clock))
}
