// How a reply is put together.
ghost use Rattle.std.specs.Prelude.{◌≡◌};
ghost use Rattle.model.specs.declared.reply.Answer.TheVariants.{Refused};
ghost use Rattle.deque.specs.Doing.{begun_reply, reply_or};

use model::{Access, Answer, Refusal, Reply};

// The reply to a call that made an access and landed so many of the owner's writes.
pub fn reply<J, O>(access: Access, landed: u8, answer: Answer<J, O>) -> Reply<J, O>
    ensures reply { result ≡ record { access = access; landed = landed; answer = answer } }
{
    Reply {
        access,
        landed,
        answer,
    }
}

pub fn refused<J, O>(access: Access, refusal: Refusal) -> Reply<J, O>
    ensures reply { result ≡ record { access = access; landed = 0; answer = Refused refusal } }
{
    reply(access, 0, Answer::Refused(refusal))
}

// A reply, or the one that says why the call is refused.
pub fn replied<J, O>(access: Access, outcome: Result<Reply<J, O>, Refusal>) -> Reply<J, O>
    ensures reply { result ≡ reply_or access outcome }
{
    outcome.unwrap_or_else(|refusal| refused(access, refusal))
}

// The reply to a call that made no access and either answers or is refused.
pub(crate) fn begun<J, O>(access: Access, answered: Result<Answer<J, O>, Refusal>) -> Reply<J, O>
    ensures reply { result ≡ begun_reply access answered }
{
    replied(access, answered.map(|answer| reply(access, 0, answer)))
}
