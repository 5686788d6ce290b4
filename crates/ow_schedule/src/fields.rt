// The grammar of one cron field.
ghost use Rattle.std.specs.Prelude.{◌≡◌, ◌<◌, IfOk, option_map, map};
ghost use Rattle.ow_schedule.specs.Grammar.{is_digit, is_first_digit, number_of, is_star, range_of, single_of, step_of, span_of, field_of};
ghost use Rattle.ow_schedule.specs.Fields.{seen, is_in_span, has};

use crate::span::Span;
use crate::text::{cut, first_piece};
use ow_value::NoMemory;
use std::alloc::Global;

fn is_digit(byte: u8) -> bool
    ensures { result ≡ is_digit byte }
{
    b'0' <= byte && byte <= b'9'
}

fn is_first_digit(byte: u8) -> bool
    ensures { result ≡ is_first_digit byte }
{
    b'1' <= byte && byte <= b'9'
}

// The number of one or two digits, with no leading zero.
fn number(text: &[u8]) -> Option<u8>
    ensures { result ≡ number_of text.now }
{
    match text {
        [one] if is_digit(*one) => Some(*one - b'0'),
        [ten, one] if is_first_digit(*ten) && is_digit(*one) => {
            Some((*ten - b'0') * 10 + (*one - b'0'))
        }
        _ => None,
    }
}

pub(crate) fn is_star(text: &[u8]) -> bool
    ensures { result ≡ is_star text.now }
{
    matches!(text, [b'*'])
}

// The first and the last number of `*` or `A-B`.
fn read_range(text: &str, low: u8, high: u8) -> Option<(u8, u8)>
    ensures { result ≡ range_of low high text.now }
{
    if is_star(text.as_bytes()) {
        return Some((low, high));
    }
    let (first, last) = cut(text, '-')?;
    let first = number(first.as_bytes())?;
    let last = number(last.as_bytes())?;
    if low <= first && first <= last && last <= high {
        Some((first, last))
    } else {
        None
    }
}

fn read_single(text: &str, low: u8, high: u8) -> Option<(u8, u8)>
    ensures { result ≡ single_of low high text.now }
{
    let only = number(text.as_bytes())?;
    if low <= only && only <= high {
        Some((only, only))
    } else {
        None
    }
}

fn read_step(text: &str) -> Option<u8>
    ensures { result ≡ step_of text.now }
{
    let step = number(text.as_bytes())?;
    if 1 <= step && step <= 59 {
        Some(step)
    } else {
        None
    }
}

// `*`, `*/N`, `A`, `A-B` or `A-B/N`.
fn read_span(text: &str, low: u8, high: u8) -> Option<Span>
    ensures { option_map seen result ≡ span_of low high text.now }
{
    match cut(text, '/') {
        None => {
            let (first, last) = match read_range(text, low, high) {
                Some(range) => range,
                None => read_single(text, low, high)?,
            };
            Some(Span {
                first,
                last,
                step: 1,
            })
        }
        Some((range, step)) => {
            let (first, last) = read_range(range, low, high)?;
            let step = read_step(step)?;
            Some(Span { first, last, step })
        }
    }
}

/// The spans of a cron field whose numbers run from `low` to `high`; None where the text is no such field.
pub(crate) fn read_field(
    alloc: Global,
    text: &str,
    low: u8,
    high: u8,
) -> Result<Option<Vec<Span>>, NoMemory>
    ensures { IfOk result (λ field. option_map (λ spans. map seen spans.items) field ≡ field_of low high text.now) }
{
    let mut spans = Vec::new(alloc);
    let mut left = Some(text);
    'pieces: while let Some(rest) = left {
        let (piece, after) = first_piece(rest, ',');
        left = after;
        let Some(span) = read_span(piece, low, high) else {
            return Ok(None);
        };
        spans.push(span)?;
    }
    Ok(Some(spans))
}

fn is_in_span(span: &Span, value: u8) -> bool
    ensures { result ≡ is_in_span (seen span.now) value }
{
    span.first <= value && value <= span.last && (value - span.first) % span.step == 0
}

/// Whether one of the spans has the number.
pub(crate) fn is_in(spans: &[Span], value: u8) -> bool
    ensures { result ≡ has spans.now value }
{
    spans.iter().any(|span| is_in_span(span, value))
}
