use ow_http::{Answer, Reason, ServiceRefusal, reason_text, refusal, write_reply};
use ow_value::{Bytes, Pairs, PlainData, Str};
use std::alloc::Global;
use std::test::Fail;

const LIMITED: &str = "Too many invocations in the last minute: 119 of 120.";

const LIMITED_REPLY: &str =
    "HTTP/1.1 429 Too Many Requests\r\nContent-Type: application/json\r\nContent-Length: 74\r\n\r\n{\"code\":25,\"error\":\"Too many invocations in the last minute: 119 of 120.\"}";

const BARE_REPLY: &str = "HTTP/1.1 204 No Content\r\nX-A: 1\r\n\r\n";

fn is_reason_copied(alloc: Global, reason: &Reason) -> Result<bool, Fail> {
    let copied = reason.copy(alloc)?;
    Ok(copied.same(reason))
}

fn is_answer_copied(alloc: Global, answer: &Answer) -> Result<bool, Fail> {
    let copied = answer.copy(alloc)?;
    Ok(copied.same(answer))
}

// Whether it has this text.
fn has_text(alloc: Global, reason: &Reason, expected: &str) -> Result<bool, Fail> {
    let text = reason_text(alloc, reason)?;
    Ok(text.as_str() == expected)
}

fn is_written(alloc: Global, answer: &Answer, expected: &str) -> Result<bool, Fail> {
    let written = write_reply(alloc, answer)?;
    Ok(written.as_slice() == expected.as_bytes())
}

// Whether this reply reports the reason.
fn is_refused(alloc: Global, reason: &Reason, expected: &str) -> Result<bool, Fail> {
    let answer = refusal(alloc, reason)?;
    is_written(alloc, &answer, expected)
}

const OVER_THE_LIMIT: ServiceRefusal = ServiceRefusal::MinuteLimit {
    count: 119,
    allowed: 120,
};

fn is_told(alloc: Global, reason: &Reason) -> Result<bool, Fail> {
    Ok(
        has_text(alloc, reason, LIMITED)?
            && is_refused(alloc, reason, LIMITED_REPLY)?
            && is_reason_copied(alloc, reason)?,
    )
}

#[test]
fn refusals_are_told_and_written(rt: HostRuntime) -> Result<(), Fail> {
    let reason = Reason::Service(OVER_THE_LIMIT);
    assert!(rt; is_told(rt.alloc(), &reason)?);
    Ok(())
}

fn bare(alloc: Global) -> Result<Answer, Fail> {
    let mut headers = Vec::new(alloc);
    headers.push((Str::of(alloc, "X-A")?, Str::of(alloc, "1")?))?;
    Ok(Answer {
        status: 204,
        headers: Pairs::from_vec(headers)?,
        body: Bytes::new(),
    })
}

fn is_bare(alloc: Global, answer: &Answer) -> Result<bool, Fail> {
    Ok(is_written(alloc, answer, BARE_REPLY)? && is_answer_copied(alloc, answer)?)
}

#[test]
fn an_answer_without_content_has_no_length(rt: HostRuntime) -> Result<(), Fail> {
    let answer = bare(rt.alloc())?;
    assert!(rt; is_bare(rt.alloc(), &answer)?);
    Ok(())
}
