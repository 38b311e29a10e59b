//! The source of a feeder's filings, and the writer of their answers.
ghost use Rattle.std.specs.Prelude.{◌≡◌};

use crate::fault::FeedEnd;
use flow_input::Counted;

/// The source of a feeder's filings, the writer of their answers, and how the feed ended.
#[derive(Drop)]
pub struct Feed<R, W> {
    pub reader: Counted<R>,
    pub writer: Counted<W>,
    pub end: FeedEnd,
}

impl<R, W> Feed<R, W> {
    /// Creates a feed that has not begun.
    pub fn new(reader: R, writer: W) -> Self
        ensures reader { (result.reader.device ≡ reader) × (result.reader.failures ≡ 0) }
        ensures writer { (result.writer.device ≡ writer) × (result.writer.failures ≡ 0) }
        ensures open { result.end ≡ FeedEnd.Open }
    {
        Feed {
            reader: Counted::new(reader),
            writer: Counted::new(writer),
            end: FeedEnd::Open,
        }
    }
}
