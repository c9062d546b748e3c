use shelf_io::Progress;
use std::cell::Cell;
use std::fmt::Display;
use std::time::Clock;

/// When something was first told of, and last, in milliseconds since the command began.
#[derive(Clone, Copy)]
struct Span {
    first: u64,
    last: u64,
}

impl Span {
    /// A span that began before, or begins now, and goes on to now.
    fn to(before: Option<Span>, now: u64) -> Span {
        match before {
            Some(span) => Span {
                first: span.first,
                last: now,
            },
            None => Span {
                first: now,
                last: now,
            },
        }
    }
}

/// The seconds of a span; 0 where nothing was told of.
fn seconds_of(span: Option<Span>) -> u64 {
    match span {
        Some(span) => span.last.saturating_sub(span.first) / 1000,
        None => 0,
    }
}

/// Calls that take no longer than this are not told of, in milliseconds.
const SHORT: u64 = 1_000;

/// How long a line stands at least, in milliseconds.
const STANDS: u64 = 200;

/// Behind calls that take longer than this, it is told where the time went, in milliseconds.
const LONG: u64 = 10_000;

/// One who waits at a terminal: a line there, rewritten in place, tells how far the command is. Where standard error is no
/// terminal, nothing is told.
#[derive(Drop)]
pub struct Terminal<R> {
    rt: R,
    is_terminal: bool,
    /// When the command began, in milliseconds of the system's clock.
    begun: u64,
    /// When the measured runs, and the search, went on.
    runs: Cell<Option<Span>>,
    search: Cell<Option<Span>>,
    /// When a line was written last, if one stands there.
    told: Cell<Option<u64>>,
}

/// The milliseconds of the system's clock; 0 where it can't be read.
fn milliseconds(clock: &impl Clock) -> u64 {
    match clock.monotonic() {
        Ok(time) => u64::try_from(time.as_millis()).unwrap_or(0),
        Err(_) => 0,
    }
}

/// By how many tenths of a percent of the bound the best choice may still grow.
fn gap(saved: u128, bound: u128) -> u128 {
    bound.saturating_sub(saved).saturating_mul(1000) / bound.max(1)
}

impl<R: Clock + Eprint> Terminal<R> {
    /// One who begins now, by a clock.
    pub fn new(rt: R, is_terminal: bool) -> Terminal<R> {
        let begun = milliseconds(&rt);
        Terminal {
            rt,
            is_terminal,
            begun,
            runs: Cell::new(None),
            search: Cell::new(None),
            told: Cell::new(None),
        }
    }

    /// The milliseconds since the command began.
    fn now(&self) -> u64 {
        milliseconds(&self.rt).saturating_sub(self.begun)
    }

    /// Whether a line is to be written now.
    fn is_due(&self, now: u64) -> bool {
        let next = match self.told.get() {
            Some(last) => last.saturating_add(STANDS),
            None => SHORT,
        };
        self.is_terminal && now >= next
    }

    /// Writes the line anew, with the seconds since the command began.
    fn tell(&self, now: u64, words: impl Display + Drop) {
        self.told.set(Some(now));
        let seconds = now / 1000;
        let _ = eprint!(self.rt; "\rspmlink: {words}, {seconds} s\x1b[K");
    }

    /// Takes the line away, if one stands there.
    pub fn clear(&self) {
        if self.told.take().is_some() {
            let _ = eprint!(self.rt; "\r\x1b[K");
        }
    }

    /// Tells where the time of a long call went.
    pub fn tell_times(&self) {
        let now = self.now();
        if !self.is_terminal || now < LONG {
            return;
        }
        let all = now / 1000;
        let runs = seconds_of(self.runs.get());
        let search = seconds_of(self.search.get());
        let rest = all.saturating_sub(runs).saturating_sub(search);
        let _ = eprintln!(self.rt;
            "spmlink: {all} s: {runs} s for the measured runs, {search} s for the search, {rest} s for all else"
        );
    }
}

impl<R: Clock + Eprint> Progress for Terminal<R> {
    fn steps(&self, done: u64, most: u64) {
        let now = self.now();
        self.runs.set(Some(Span::to(self.runs.get(), now)));
        if self.is_due(now) {
            self.tell(now, format_args!("{done} of at most {most} steps"));
        }
    }

    fn nodes(&self, left: u64, saved: u128, bound: Option<u128>) {
        let now = self.now();
        self.search.set(Some(Span::to(self.search.get(), now)));
        if !self.is_due(now) {
            return;
        }
        match bound {
            Some(bound) => {
                let tenths = gap(saved, bound);
                let (whole, tenths) = (tenths / 10, tenths % 10);
                self.tell(
                    now,
                    format_args!("search: {left} nodes left, {whole}.{tenths} % below the bound"),
                )
            }
            None => self.tell(
                now,
                format_args!("search: {left} nodes left, saves {saved}"),
            ),
        }
    }
}
