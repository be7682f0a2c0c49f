//! The scale of a timeline.
ghost use Rattle.std.specs.Prelude.{◌≡◌, ◌-◌, ◌*◌, ◌≤◌};
ghost use Rattle.drive.specs.Fields.{state_in};
ghost use Rattle.history_report.specs.Timeline.{scale_between, scale_of, place_of};

use drive::Drive;
use moment_words::{MomentStyle, style_of};
use s4_types::Moment;
use segment_word::Naming;

/// How many units a picture has across.
const UNITS: u128 = 1000;

/// Where moments are on a picture, from the first at the left end to the last at the right end.
#[derive(Clone, Copy)]
pub(crate) struct Scale {
    /// The moment at the left end.
    pub(crate) first: u64,
    /// The moment at the right end.
    pub(crate) last: u64,
    /// How moments are printed.
    pub(crate) style: MomentStyle,
}

fn scale_between(first: u64, last: u64) -> Scale
    ensures { result ≡ scale_between first last }
{
    Scale {
        first,
        last,
        style: style_of(last, false),
    }
}

/// The scale of a drive, from its floor to its clock.
pub(crate) fn scale_of<J: Naming>(drive: &Drive<J>) -> Scale
    ensures { result ≡ scale_of (state_in drive.now) }
{
    scale_between(drive.floor().number(), drive.clock().number())
}

/// The unit that has a moment.
pub(crate) fn place_of(scale: &Scale, moment: Moment) -> u64
    ensures place { result ≡ place_of scale.now moment }
    ensures within { result ≤ 1000 }
{
    let gone = u128::from(moment.number().saturating_sub(scale.first));
    let all = u128::from(scale.last.saturating_sub(scale.first)).max(1);
    (gone * UNITS / all).min(UNITS) as u64
}
