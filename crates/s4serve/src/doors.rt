//! Who reads the lines at a door.
ghost use Rattle.std.specs.Prelude.{◌≡◌, ◌+◌, ◌^◌, ◌<◌, true};
ghost use Rattle.s4serve.specs.Doors.{IsReadAt};
ghost use Rattle.s4serve.specs.Heard.{IsOfDoor};

use crate::heard::{AtDoor, Said, StopLine, lines_at};
use crate::service::{Door, Service, Serving};
use crate::telling::{News, Telling};
use door_files::{Fifos, open_session};
use door_lines::{PieceSource, SessionName};
use image_keeping::Keeper;
use serving::Clock;
use std::alloc::Global;
use std::sync::Wait;

/// Reads the lines at the door of this number from its file.
pub fn watch_input<J: Serving, C: Clock, K: Keeper, R: Wait, D: Fifos + Telling>(
    rt: &R,
    alloc: Global,
    service: &Service<J, C, K>,
    outside: &D,
    number: usize,
    input: D::Input,
)
    requires { IsReadAt D.reads J.doors number input }
{
    let Some(door) = service.doors.as_slice().get(number) else {
        return;
    };
    let mut lines = lines_at::<J, D>(door, number, input);
    watch(rt, alloc, service, outside, &mut lines);
}

/// Reads the lines at a door, as long as that can be read.
fn watch<J: Serving, C: Clock, K: Keeper, R: Wait, D: Fifos + Telling, S: PieceSource>(
    rt: &R,
    alloc: Global,
    service: &Service<J, C, K>,
    outside: &D,
    lines: &mut AtDoor<'_, J, S>,
)
    requires { S.failures lines.old.source + 1 < 2 ^ 64 }
{
    for _turn in rt.forever() {
        if !heed_next(rt, alloc, service, outside, lines) {
            break;
        }
    }
    outside.tell(News::DoorFailed(lines.door().folder()));
}

/// Does what the next line at a door says, and answers whether it could be read.
fn heed_next<J: Serving, C: Clock, K: Keeper, R: Wait, D: Fifos, S: PieceSource>(
    rt: &R,
    alloc: Global,
    service: &Service<J, C, K>,
    outside: &D,
    lines: &mut AtDoor<'_, J, S>,
) -> bool
    requires { S.failures lines.old.source + 1 < 2 ^ 64 }
    ensures { result ≡ true → S.failures lines.new.source + 1 < 2 ^ 64 }
{
    match lines.next() {
        Ok(said) => {
            heed(rt, alloc, service, outside, lines.door(), said);
            true
        }
        Err(_) => false,
    }
}

/// Does what was said at a door.
fn heed<J: Serving, C: Clock, K: Keeper, R: Wait, D: Fifos>(
    rt: &R,
    alloc: Global,
    service: &Service<J, C, K>,
    outside: &D,
    door: &Door<J>,
    said: Said<StopLine<J>>,
)
    requires door { IsOfDoor J.doors door.now said }
{
    match said {
        Said::Session(line) => {
            if let Err(line) = service.lines.put(rt, door.role(), line) {
                turn_away(outside, alloc, door, &line.name);
            }
        }
        Said::Stop(by) => service.monitor.stop(rt, by),
        Said::Nothing => {}
    }
}

/// The streams of a session that too many others are ahead of are opened and closed, so that its
/// client sees their end.
fn turn_away<J: Serving, D: Fifos>(outside: &D, alloc: Global, door: &Door<J>, name: &SessionName) {
    let _ = open_session(outside, alloc, door.folder(), name);
}
