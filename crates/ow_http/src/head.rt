// The head of a request (RFC 9112, sections 2 to 5).
ghost use Rattle.std.specs.Prelude.{◌≡◌, ◌≤◌, ◌⊎◌, ℕ, List, length, IfOk, IfErr, IsOkAnd, Err};
ghost use Rattle.httparse.specs.Grammar.{RequestHead, print_request};
ghost use Rattle.httparse.specs.Spans.{IsRequestAt, IsRequestWithin};
ghost use Rattle.ow_http.specs.Head.{HasHead, IsBadHead, IsCutHead};
ghost use Rattle.ow_http.specs.declared.http_refusal.HttpRefusal.TheVariants.{BadHead, CutShort};

use crate::http_refusal::HttpRefusal;
use httparse::Status;
use httparse::spans::{HeaderSpan, RequestSpans, parse_request};

/// How many bytes a head has at most.
pub(crate) const MAX_HEAD: usize = 65536;

/// How many headers a head has at most.
pub(crate) const MAX_HEADERS: usize = 100;

/// The head that the bytes begin with.
pub(crate) fn read_head(
    bytes: &[u8],
    headers: &mut [HeaderSpan],
) -> Result<RequestSpans, HttpRefusal>
    requires { length headers.old ≡ MAX_HEADERS }
    ensures within { IfOk result (IsRequestWithin bytes.now headers.new) }
    ensures whole { IfOk result (λ r. (h : RequestHead) × IsRequestAt bytes.now headers.new r h × (length h.fields ≤ MAX_HEADERS) × (length (print_request h) ≤ MAX_HEAD)) }
    ensures found { (h : RequestHead) (rest : List ℕ) → HasHead bytes.now h rest → IsOkAnd result (λ r. IsRequestAt bytes.now headers.new r h) }
    ensures bad { result ≡ Err BadHead → IsBadHead bytes.now }
    ensures cut { result ≡ Err CutShort → IsCutHead bytes.now }
    ensures only { IfErr result (λ e. (e ≡ BadHead) ⊎ (e ≡ CutShort)) }
{
    match parse_request(bytes, headers) {
        Ok(Status::Complete(head)) => {
            if head.len <= MAX_HEAD {
                Ok(head)
            } else {
                Err(HttpRefusal::BadHead)
            }
        }
        Ok(Status::Partial) => {
            if bytes.len() <= MAX_HEAD {
                Err(HttpRefusal::CutShort)
            } else {
                Err(HttpRefusal::BadHead)
            }
        }
        Err(_) => Err(HttpRefusal::BadHead),
    }
}
