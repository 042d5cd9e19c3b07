//! What a conversation says.

use cloud_keeper::Row;
use std::alloc::Global;

/// Bytes that must come, and the line of the text that says so.
#[derive(Drop)]
pub struct Piece {
    pub line: usize,
    pub bytes: Vec<u8>,
}

/// What a client sends on one connection, and what must come back.
pub struct Stream {
    pub line: usize,
    pub sent: Vec<u8>,
    pub answered: Vec<Piece>,
}

// Written by hand: a proof then has one call wherever one is let go.
impl Drop for Stream {
    fn drop(self) {
        let Stream {
            line: _,
            sent: _,
            answered: _,
        } = self;
    }
}

impl Stream {
    /// A connection on which nothing is sent, and nothing comes back.
    pub fn new(alloc: Global, line: usize) -> Self {
        Stream {
            line,
            sent: Vec::new(alloc),
            answered: Vec::new(alloc),
        }
    }
}

/// One run of the program.
pub struct Round {
    /// Its words; none of them are `play`'s.
    pub words: Vec<String>,
    /// Its own input and output.
    pub own: Stream,
    /// The connections that come in at the door, one after another.
    pub streams: Vec<Stream>,
    /// The moments that its clock gives, and then the last one again; none are the moment 0.
    pub clock: Vec<u64>,
    /// The status, and the line that says so.
    pub status: (usize, u8),
}

impl Drop for Round {
    fn drop(self) {
        let Round {
            words: _,
            own: _,
            streams: _,
            clock: _,
            status: _,
        } = self;
    }
}

impl Round {
    /// A run that gets these words and nothing else.
    pub fn new(alloc: Global, line: usize, words: Vec<String>) -> Self {
        Round {
            words,
            own: Stream::new(alloc, line),
            streams: Vec::new(alloc),
            clock: Vec::new(alloc),
            status: (line, 0),
        }
    }

    /// The connection that is open: the last one at the door, or else the program's own input and output.
    pub fn open(&mut self) -> &mut Stream {
        match self.streams.last_mut() {
            Some(stream) => stream,
            None => &mut self.own,
        }
    }
}

/// The calls that fail, from 1, of each of the objects around the server.
pub struct Failing {
    pub source: Vec<u64>,
    pub sink: Vec<u64>,
    pub link: Vec<u64>,
    pub draw: Vec<u64>,
    pub spawner: Vec<u64>,
    pub store: Vec<u64>,
}

impl Drop for Failing {
    fn drop(self) {
        let Failing {
            source: _,
            sink: _,
            link: _,
            draw: _,
            spawner: _,
            store: _,
        } = self;
    }
}

impl Failing {
    /// No calls.
    pub fn none(alloc: Global) -> Self {
        Failing {
            source: Vec::new(alloc),
            sink: Vec::new(alloc),
            link: Vec::new(alloc),
            draw: Vec::new(alloc),
            spawner: Vec::new(alloc),
            store: Vec::new(alloc),
        }
    }
}

/// What keeps the rows, and which rows it has at first and must have at the end.
pub struct Kept {
    /// Whether it has no rows at first, and not those of the small book.
    pub empty: bool,
    /// The rows that are put in at first, each in the place of the one of its kind and number.
    pub first: Vec<Row>,
    /// How many rows there must be at the end, where that is told, and the line that tells it.
    pub count: Option<(usize, usize)>,
    /// The rows that must be there at the end, each with the line that tells it.
    pub last: Vec<(usize, Row)>,
}

impl Drop for Kept {
    fn drop(self) {
        let Kept {
            empty: _,
            first: _,
            count: _,
            last: _,
        } = self;
    }
}

/// A conversation: runs of the program, and what the objects around it do.
pub struct Conversation {
    pub title: String,
    pub line: usize,
    /// The runs, of which there is at least one, over the same objects.
    pub rounds: Vec<Round>,
    pub failing: Failing,
    pub kept: Kept,
    /// The answers of the grains, one after another. Where there are none, each text is its own answer.
    pub grains: Vec<Vec<u8>>,
    /// What must have been asked of grains, one text after another, where that is told.
    pub asked: Option<Vec<Piece>>,
    /// What the spawner must have been told, a line for each start and then for each stop, where that is told.
    pub told: Option<Vec<Piece>>,
    /// How many bytes the source gives at a time at the most, where that is told.
    pub gives: Option<usize>,
    /// The secrets that are drawn, each 32 times this byte, where they aren't those in sequence.
    pub secrets: Option<Vec<u8>>,
    /// How many times over the client sends what it sends, and gets what comes back.
    pub repeats: usize,
    /// Whether what is sent is cut at each of its lengths: as many answers come back as requests are whole, and the
    /// status is 6 but where none is begun.
    pub cuts: bool,
    /// The method and the target of the last request in the short form.
    pub last: (String, String),
}

impl Drop for Conversation {
    fn drop(self) {
        let Conversation {
            title: _,
            line: _,
            rounds: _,
            failing: _,
            kept: _,
            grains: _,
            asked: _,
            told: _,
            gives: _,
            secrets: _,
            repeats: _,
            cuts: _,
            last: _,
        } = self;
    }
}
