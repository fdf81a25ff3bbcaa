//! Where a head ends, as its bytes come.

/// What the last bytes of a message's beginning are.
#[derive(Clone, Copy, PartialEq, Eq, Drop)]
pub(crate) enum HeadSearch {
    /// No end of a line.
    Within,
    /// A line feed.
    AfterFeed,
    /// A line feed and a carriage return.
    AfterReturn,
    /// The empty line stood before, with which the head ends (RFC 9112 section 2.1).
    Whole,
}

impl HeadSearch {
    /// What it is behind more bytes.
    pub(crate) fn behind(self, bytes: &[u8]) -> HeadSearch {
        let mut search = self;
        for byte in bytes {
            search = search.behind_byte(*byte);
        }
        search
    }

    fn behind_byte(self, byte: u8) -> HeadSearch {
        match (self, byte) {
            (HeadSearch::Whole, _)
            | (HeadSearch::AfterFeed, b'\n')
            | (HeadSearch::AfterReturn, b'\n') => HeadSearch::Whole,
            (_, b'\n') => HeadSearch::AfterFeed,
            (HeadSearch::AfterFeed, b'\r') => HeadSearch::AfterReturn,
            _ => HeadSearch::Within,
        }
    }
}
