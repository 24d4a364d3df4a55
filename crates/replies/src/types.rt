// What a call that writes hands back.
ghost use Rattle.std.specs.Prelude.{◌≡◌};
ghost use Rattle.replies.specs.RefusedReplies.{refused_reply};

use store::{Answer, Head};

// The answer, and the head for the next call: refused, the head that was handed in.
#[derive(Clone, Copy)]
pub struct Reply {
    pub answer: Answer,
    pub head: Head,
}

impl Reply {
    // A refusal's number and no other field, with the head as it was. Any number may be handed in: a `Refusal` would ask more of a caller.
    pub fn refused(number: u8, head: Head) -> Reply
        ensures { result ≡ refused_reply number head }
    {
        Reply {
            answer: Answer::Refused(number),
            head,
        }
    }
}
