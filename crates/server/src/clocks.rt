//! The clock that `serve` is given for a session beside others.
use s4_types::Moment;
use serving::Clock;

/// A clock that gives no moment of its own: a session that shares its drive draws that of each
/// request under the drive's lock, once the request is its turn. So moments come in the order in
/// which requests are answered.
#[derive(Drop)]
pub struct Undrawn;

impl Clock for Undrawn {
    ghost use Rattle.server.specs.Drawing.{DrawsNothing};

    ghost draws = { DrawsNothing };

    fn draw(&mut self) -> Moment {
        Moment::new(0)
    }
}
