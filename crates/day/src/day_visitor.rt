ghost use Rattle.std.specs.Prelude.{map};
ghost use Rattle.script.specs.Reading.{setup_value};
ghost use Rattle.desk.specs.Serving.{request_value};
ghost use Rattle.day.specs.DayRun.{RunsDay};

use crate::day::{Day, run_day};
use crate::left::Left;
use crate::start::Start;
use books::Book;
use desk::Request;
use registry::BookVisitor;
use script::Setup;
use std::alloc::{AllocError, Global};

/// A day that is to be run in the book of a name: all that `run_day` takes, but for the book.
#[derive(Drop)]
pub(crate) struct DayVisitor<'a> {
    pub(crate) heap: Global,
    pub(crate) start: Start,
    pub(crate) bytes: &'a mut [u8],
    pub(crate) setup: &'a Setup,
    pub(crate) requests: Vec<Request<'a>>,
}

impl<'a> BookVisitor for DayVisitor<'a> {
    type Output = (Left<'a>, Result<Day, AllocError>);

    ghost visit_gives = { λ visitor m given. RunsDay m visitor.start visitor.bytes.now
        (setup_value visitor.setup.now) (map request_value visitor.requests.items)
        given.1 given.0 };

    fn visit<B: Book + Copy + Drop>(self, book: B) -> (Left<'a>, Result<Day, AllocError>) {
        run_day(
            self.heap,
            book,
            self.start,
            self.bytes,
            self.setup,
            self.requests,
        )
    }
}
