//! What follows from the rule for any two sessions.
ghost use Rattle.segment_word.specs.AcceptHandles.{SessionsShareNone, ToldShareNone};

/// Whatever the seats know, the sessions of two seats share no number.
pub fn sessions_share_none()
    ensures { SessionsShareNone }
{}

/// Two sessions of different seats that were told the truth share no number.
pub fn told_share_none()
    ensures { ToldShareNone }
{}
