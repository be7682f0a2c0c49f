ghost use Rattle.std.specs.Prelude.{ℕ};
ghost use Rattle.s4_types.specs.Sizes.{ReplyFits};
ghost use Rattle.s4_types.specs.declared.requests.Request.{Request as RequestValue};
ghost use Rattle.s4_types.specs.declared.replies.Reply.{Reply as ReplyValue};

use s4_types::{Moment, Reply, Request};

/// What answers the requests of a session.
pub trait Backend {
    // From the first state, the request at the moment may be answered by the reply, which leads to
    // the second.
    ghost steps: { Self → RequestValue → ℕ → ReplyValue → Self → Type 0 };

    /// Answers one request. The reply is one that has an encoding on the wire.
    fn request(&mut self, request: Request, now: Moment) -> Reply
        ensures step { steps self.old request now result self.new }
        ensures fits { ReplyFits result };
}
