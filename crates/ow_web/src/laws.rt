// What is true of web answers. The functions do nothing: their contracts are the laws.
ghost use Rattle.ow_web.specs.Laws.{AnswersAreSendable, RepliesAreSendable};

/// No header of a web reply ends its line, nor says where the reply ends, and the status is from 200 to 599. So the length that
/// the writer of replies sets is the only one.
pub fn replies_are_sendable()
    ensures { RepliesAreSendable }
{}

/// So it is with what is sent to one who waited, also where the result is no web response.
pub fn answers_are_sendable()
    ensures { AnswersAreSendable }
{}
