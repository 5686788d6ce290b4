// From the start to the end.
ghost use Rattle.std.specs.Prelude.{◌≡◌, ◌≤◌, ◌-◌};

use std::marker::Model;

/// From the start of an activation to its end, in milliseconds. The end doesn't come before the start.
#[derive(Clone, Copy, PartialEq, Eq, Debug, Drop)]
pub struct Span {
    start: u64,
    end: u64,
}

impl Model for Span {
    ghost use Rattle.std.specs.Prelude.{◌≤◌};
    ghost use Rattle.ow_records.specs.Span.{SpanView, span_code};

    ghost Value = { SpanView };

    ghost coded = { span_code };

    ghost view = { λ a. record { start = a.start; end = a.end } };

    ghost invariant = { λ a. a.start ≤ a.end };

    ghost inverse = { λ v. record { start = v.start; end = v.end } };
}

impl Span {
    /// From this moment to that one.
    pub fn new(start: u64, end: u64) -> Span
        requires { start ≤ end }
        ensures { result ≡ record { start = start; end = end } }
    {
        Span { start, end }
    }

    /// The moment of the start.
    pub fn start(&self) -> u64
        ensures { result ≡ self.now.start }
    {
        self.start
    }

    /// The moment of the end.
    pub fn end(&self) -> u64
        ensures value { result ≡ self.now.end }
        ensures order { self.now.start ≤ result }
    {
        self.end
    }

    /// How long it took.
    pub fn duration(&self) -> u64
        ensures { result ≡ self.now.end - self.now.start }
    {
        self.end - self.start
    }
}
