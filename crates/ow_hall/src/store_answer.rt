// What a request is answered where the store fails.
ghost use Rattle.std.specs.Prelude.{◌≡◌, IfOk};
ghost use Rattle.ow_hall.specs.Comes.{store_reply};

use ow_decide::Reply;
use ow_http::{Answer, Reason, ServiceRefusal, refusal};
use ow_value::{NoMemory, PlainData};
use std::alloc::Global;
use std::marker::Model;

/// The answer to a request that would change what is kept, where the store fails. It is made once, since no memory may be left then.
#[derive(Drop)]
pub(crate) struct StoreAnswer {
    answer: Answer,
}

impl Model for StoreAnswer {
    ghost use Rattle.std.specs.Prelude.{◌≡◌};
    ghost use Rattle.ow_http.specs.Refused.{refusal_of};
    ghost use Rattle.ow_http.specs.declared.answer.Answer.{Answer as AnswerValue};
    ghost use Rattle.ow_hall.specs.Comes.{store_failed};
    ghost use Rattle.std.specs.Coded.{codes};
    ghost use Rattle.ow_value.specs.Code.{value_code};

    ghost Value = { AnswerValue };

    ghost coded = { Prim.hlevel (codes, value_code) };

    ghost view = { λ a. a.answer };

    ghost invariant = { λ a. a.answer ≡ refusal_of store_failed };
}

impl StoreAnswer {
    /// The answer.
    pub(crate) fn new(alloc: Global) -> Result<StoreAnswer, NoMemory> {
        let answer = refusal(alloc, &Reason::Service(ServiceRefusal::StoreFault))?;
        Ok(StoreAnswer { answer })
    }

    /// The reply, which shares the answer's bytes.
    pub(crate) fn reply(&self, alloc: Global) -> Result<Reply, NoMemory>
        ensures { IfOk result (λ r. r ≡ store_reply) }
    {
        Ok(Reply::Now(self.answer.copy(alloc)?))
    }
}
