//! What holds of every log.
ghost use Rattle.update_log.specs.Single.{IsOneLog};

/// A file is the log of one image at most, with these payloads and this end: so what `accept` gives
/// of it is what was put.
pub fn a_file_is_one_log()
    ensures { IsOneLog }
{}
