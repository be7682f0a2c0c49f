//! What a check comes to, for the layers above: the function changes nothing, and its contract is
//! the law.
ghost use Rattle.drive.specs.Fields.{state_in, store_of};
ghost use Rattle.history_export.specs.Covering.{EachVersionIsRead};

use drive::Drive;
use segment_word::Naming;

/// Of each object at each moment that can be read, a check reads what it is then: at that moment,
/// or at an earlier one at which it is the same.
pub fn each_version_is_read<J: Naming>(drive: &Drive<J>)
    ensures { EachVersionIsRead (state_in drive.now) (store_of drive.now) }
{
    drive.rules();
}
